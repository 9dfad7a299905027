//! What the exchange model's journal stands for: on every run the records fold to the durable part of the server, so a
//! restart loses nothing that was recorded.
//!
//! The law is a public function with an empty body, whose contract is the statement; its definitions stand in `specs`
//! and, for `StandsFor`, in the crate of definitions below.

ghost use Rattle.std.specs.Prelude.{List};
ghost use Rattle.spec_exchange.specs.Fold.{StandsFor, recovered_from};
ghost use Rattle.spec_exchange.specs.Network.{Event, Settings, run, start};
ghost use Rattle.law_records.specs.recovery.Recovers.{RecordRecovers};
ghost use Rattle.law_records.specs.recovery.Restarted.{EntriesLeft, Restarted};

/// On every run, behind every event, the state that the journal's records fold to has the same durable part as the
/// server (`stands`), column by column (`agree`): files, persistent opens with their rows, slots, guids and ranges,
/// expired guids, epoch and version. So a restart at any moment leaves those opens with all that is theirs, a new epoch of ids
/// and no session (`restart`), and each file at its path, but for delete pending ones that no such open has: those go, and a
/// directory that can't go is delete pending no longer (`entries`).
pub fn recovery_law()
    ensures stands { (settings : Settings) (events : List Event)
        → StandsFor (run events (start settings)).records (run events (start settings)).server }
    ensures agree { (settings : Settings) (events : List Event)
        → RecordRecovers (run events (start settings)).records (run events (start settings)).server }
    ensures restart { (settings : Settings) (events : List Event)
        → Restarted (run events (start settings)).server
        (recovered_from (run events (start settings)).server (run events (start settings)).records) }
    ensures entries { (settings : Settings) (events : List Event)
        → EntriesLeft (run events (start settings)).server
        (recovered_from (run events (start settings)).server (run events (start settings)).records) }
{}
