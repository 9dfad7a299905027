//! What fits together of the server's tables goes on doing so: behind an event, an expiry and a record.
//!
//! The law is a public function with an empty body, whose contract is the statement.

ghost use Rattle.std.specs.Prelude.{◌≡◌, ℕ, ◌≤◌, Bool, List, None, Some, true};
ghost use Rattle.spec_exchange.specs.Fold.{fold_from, full_room, nothing_yet, recovered_from};
ghost use Rattle.spec_exchange.specs.State.{Origin, Record, Server, ServerEvent};
ghost use Rattle.spec_exchange.specs.Step.{due, expire, expire_records, step, take_out, with_deadlines};
ghost use Rattle.law_server.specs.tables.Fits.{Fits, all_sound};

/// The state of no records fits, and from a state that fits so does the one behind an event at any moment, behind the
/// expiry of an open that stands, behind a connection that is lost, with the journal's bytes counted anew, behind records none
/// of which makes an open that deletes the root on close, and behind a restart on such records. The open that is due
/// stands and has no session. No record of an event or of an expiry makes an open that deletes the root on close, and neither
/// changes the version of the journal.
pub fn keeps_law()
    ensures begins { Fits nothing_yet }
    ensures stepped { (s : Server) (now : ℕ) (e : ServerEvent) → Fits s → Fits (step s now e).server }
    ensures expired { (s : Server) (o : ℕ) → s.standing o ≡ true → Fits s → Fits (expire s o) }
    ensures folded { (s : Server) (rs : List Record) → all_sound rs ≡ true → Fits s → Fits (fold_from s rs) }
    ensures recovered { (s : Server) (rs : List Record) → s.room ≤ full_room → all_sound rs ≡ true → Fits (recovered_from s rs) }
    ensures taken_out { (s : Server) (k now : ℕ) (is_quiet : Bool) → Fits s → Fits (take_out s k now is_quiet) }
    ensures counted { (s : Server) (n : ℕ) → Fits s → Fits (record s { journal = n }) }
    ensures due { (s : Server) (now o : ℕ) → Fits s → due (with_deadlines s now) now ≡ Some o
        → (s.standing o ≡ true) × (s.session_of_open o ≡ None) }
    ensures sound { (s : Server) (now : ℕ) (e : ServerEvent) → Fits s → all_sound (step s now e).records ≡ true }
    ensures sound_alone { (s : Server) (g : Origin) (o : ℕ) → all_sound (expire_records s g o) ≡ true }
    ensures version { (s : Server) (now : ℕ) (e : ServerEvent) → (step s now e).server.version ≡ s.version }
    ensures version_alone { (s : Server) (o : ℕ) → (expire s o).version ≡ s.version }
{}
