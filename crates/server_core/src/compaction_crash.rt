//! What a crash at any moment at which a server writes its journal anew leaves, and what a start makes of it.
//!
//! The law is a public function with an empty body but for the law that it rests on; its contract is the statement.

ghost use Rattle.std.specs.Prelude.{ℕ, List};
ghost use Rattle.spec_exchange.specs.Fold.{Configuration};
ghost use Rattle.spec_exchange.specs.State.{Record, Server};
ghost use Rattle.spec_journal.specs.Forms.{BreaksAt, StandsFor};
ghost use Rattle.law_snapshots.specs.snapshots.Pieces.{SnapshotPiece};
ghost use Rattle.server_core.specs.Reading.{SpellOver};
ghost use Rattle.server_core.specs.compaction.Compacts.{CompactionLeaves};
ghost use Rattle.server_core.specs.crash.Left.{IsRecordedOver, StartsAgain};
ghost use Rattle.server_core.specs.restart_tables.Restart.{IsNoBody};

use crate::restarts::snapshot_start_law;

/// Of a server for which the disk's bodies stand, a base and records behind it: no restart refuses what a crash at any moment of
/// `compact` leaves as no journal (`taken`). Whatever base and records a start reads there, under whatever configuration and behind however
/// many bytes, it stands where the server stood (`again`).
pub fn compacted_law()
    ensures taken { (base : List SnapshotPiece) (s : Server) (records : List Record) (bodies : List (List ℕ)) (bytes : List ℕ) (at : ℕ)
        → IsRecordedOver base s records bodies → CompactionLeaves s bodies bytes → (BreaksAt bytes at → ⊥) × (IsNoBody bytes at → ⊥) }
    ensures again { (base : List SnapshotPiece) (s : Server) (records : List Record) (bodies : List (List ℕ)) (bytes : List ℕ)
        (others : List (List ℕ)) (found : List SnapshotPiece) (kept : List Record) (z : Configuration) (count : ℕ)
        → IsRecordedOver base s records bodies → CompactionLeaves s bodies bytes → StandsFor bytes others → SpellOver found others kept
        → StartsAgain s found kept z count }
{
    snapshot_start_law();
}
