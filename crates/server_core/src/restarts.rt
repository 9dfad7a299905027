//! What a restart finds of the server that ran before: the records that it had written down, and so its files and its opens that
//! outlive a session.
//!
//! The law is a public function with an empty body but for the laws that it rests on; its contract is the statement.

ghost use Rattle.std.specs.Prelude.{◌≡◌, ℕ, List, true};
ghost use Rattle.spec_exchange.specs.Fold.{Configuration, recovered};
ghost use Rattle.spec_exchange.specs.State as model;
ghost use Rattle.spec_journal.specs.Forms.{BreaksAt, StandsFor};
ghost use Rattle.law_snapshots.specs.snapshots.Pieces.{SnapshotPiece};
ghost use Rattle.law_records.specs.recovery.Recovers.{RecordRecovers};
ghost use Rattle.law_records.specs.recovery.Restarted.{EntriesLeft, Restarted};
ghost use Rattle.law_server.specs.tables.Fits.{Fits, all_sound};
ghost use Rattle.server_core.specs.Reading.{BodiesSpell, SpellOver};
ghost use Rattle.server_core.specs.crash.Left.{BytesStand, StartsAgain};
ghost use Rattle.server_core.specs.restart_tables.Restart.{IsNoBody};

use journal::{broken_means_nothing, one_meaning};
use journal_bytes::{pieces_law, records_law};
use law_snapshots::{piece_fits_law, restart_over_law};

/// Bytes whose bodies spell records that make no open which deletes the root on close are a journal, which no restart refuses as
/// none (`taken`), and stand for no other records (`same`). A server of whose state the records are told by their fold stands,
/// behind a restart, where it stood (`stands`): its persistent opens with all that is theirs, in a new epoch of ids, without a
/// session; and each file at its path, but for delete pending ones that no such open has: those go, and a directory that can't go
/// is delete pending no longer (`entries`).
pub fn restart_law()
    ensures taken { (bytes : List ℕ) (bodies : List (List ℕ)) (records : List model.Record) (at : ℕ) → StandsFor bytes bodies
        → BodiesSpell bodies records → all_sound records ≡ true → (BreaksAt bytes at → ⊥) × (IsNoBody bytes at → ⊥) }
    ensures same { (bytes : List ℕ) (bodies others : List (List ℕ)) (records more : List model.Record) → StandsFor bytes bodies
        → BodiesSpell bodies records → StandsFor bytes others → BodiesSpell others more → records ≡ more }
    ensures stands { (s : model.Server) (records : List model.Record) (z : Configuration) (count : ℕ) → RecordRecovers records s
        → Restarted s (recovered z count records) }
    ensures entries { (s : model.Server) (records : List model.Record) (z : Configuration) (count : ℕ) → Fits s → RecordRecovers records s
        → EntriesLeft s (recovered z count records) }
{
    records_law();
    pieces_law();
    broken_means_nothing();
    one_meaning();
}

/// The same over a snapshot at the front of the bodies, the base, with any records behind it: no restart refuses such bytes as no journal
/// (`taken`), and they stand for no other base and no other records (`same`). Whatever base and records a start reads of bytes that stand
/// for a server, under whatever configuration and behind however many bytes: it stands where the server stood (`again`). So it does where a
/// journal is written anew: the bytes that a crash leaves stand for the server by the old base and the records since, or by the new one.
pub fn snapshot_start_law()
    ensures taken { (bytes : List ℕ) (bodies : List (List ℕ)) (base : List SnapshotPiece) (records : List model.Record) (at : ℕ)
        → StandsFor bytes bodies → SpellOver base bodies records → all_sound records ≡ true
        → (BreaksAt bytes at → ⊥) × (IsNoBody bytes at → ⊥) }
    ensures same { (bytes : List ℕ) (bodies others : List (List ℕ)) (base more : List SnapshotPiece) (records next : List model.Record)
        → StandsFor bytes bodies → SpellOver base bodies records → StandsFor bytes others → SpellOver more others next
        → (base ≡ more) × (records ≡ next) }
    ensures again { (s : model.Server) (bytes : List ℕ) (base found : List SnapshotPiece) (records kept : List model.Record)
        (others : List (List ℕ)) (z : Configuration) (count : ℕ) → BytesStand bytes base records s → StandsFor bytes others
        → SpellOver found others kept → StartsAgain s found kept z count }
{
    records_law();
    pieces_law();
    piece_fits_law();
    broken_means_nothing();
    one_meaning();
    restart_over_law();
}
