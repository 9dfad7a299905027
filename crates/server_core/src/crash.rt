//! What a crash at any moment of an event leaves, and what a restart makes of it.
//!
//! The law is a public function with an empty body but for the laws that it rests on; its contract is the statement.

ghost use Rattle.std.specs.Prelude.{◌≡◌, ℕ, List};
ghost use Rattle.server_core.specs.crash.Left.{AgainOf, AgainOver, IsRecorded, IsRecordedOver, LeftOf, LeftOver};
ghost use Rattle.spec_exchange.specs.Fold.{Configuration};
ghost use Rattle.spec_exchange.specs.State.{Record, Server, ServerEvent};
ghost use Rattle.spec_journal.specs.Forms.{BreaksAt, StandsFor};
ghost use Rattle.law_snapshots.specs.snapshots.Pieces.{SnapshotPiece};
ghost use Rattle.server_core.specs.journaled_tables.Holds.{EventLeavesBodies};
ghost use Rattle.server_core.specs.Reading.{BodiesSpell, SpellOver};
ghost use Rattle.server_core.specs.restart_tables.Restart.{IsNoBody};

use crate::next_body::behind_law;
use crate::restarts::{restart_law, snapshot_start_law};
use law_records::{keeps_law, stands_law};

/// Of a server whose records its disk's bodies spell: what a crash at any moment of an event leaves stands for the state before the
/// event, for that behind it, or for that behind an expiry which stands alone, with its records (`left`). No restart refuses it as no
/// journal (`taken`). Whatever records a restart reads there, under whatever configuration and behind however many bytes, the state
/// that it makes of them is one of these three as a restart leaves it: its persistent opens with all that is theirs and its files
/// (`again`).
pub fn crash_law()
    ensures left { (s : Server) (now : ℕ) (e : ServerEvent) (records : List Record) (bodies : List (List ℕ)) (bytes : List ℕ)
        → IsRecorded s records bodies → EventLeavesBodies s now e bodies bytes → LeftOf s now e records bytes }
    ensures taken { (s : Server) (now : ℕ) (e : ServerEvent) (records : List Record) (bodies : List (List ℕ)) (bytes : List ℕ) (at : ℕ)
        → IsRecorded s records bodies → EventLeavesBodies s now e bodies bytes → (BreaksAt bytes at → ⊥) × (IsNoBody bytes at → ⊥) }
    ensures again { (s : Server) (now : ℕ) (e : ServerEvent) (records : List Record) (bodies : List (List ℕ)) (bytes : List ℕ)
        (others : List (List ℕ)) (kept : List Record) (z : Configuration) (count : ℕ) → IsRecorded s records bodies
        → EventLeavesBodies s now e bodies bytes → StandsFor bytes others → BodiesSpell others kept → AgainOf s now e records kept z count }
{
    behind_law();
    keeps_law();
    stands_law();
    restart_law();
}

/// The same of a server whose disk's bodies are a snapshot, the base, and records behind it: the base stays (`left`), no restart refuses
/// the bytes as no journal (`taken`), and a start over whatever base and records it reads there stands where one of these states stood
/// (`again`).
pub fn crash_over_law()
    ensures left { (base : List SnapshotPiece) (s : Server) (now : ℕ) (e : ServerEvent) (records : List Record) (bodies : List (List ℕ))
        (bytes : List ℕ) → IsRecordedOver base s records bodies → EventLeavesBodies s now e bodies bytes
        → LeftOver base s now e records bytes }
    ensures taken { (base : List SnapshotPiece) (s : Server) (now : ℕ) (e : ServerEvent) (records : List Record) (bodies : List (List ℕ))
        (bytes : List ℕ) (at : ℕ) → IsRecordedOver base s records bodies → EventLeavesBodies s now e bodies bytes
        → (BreaksAt bytes at → ⊥) × (IsNoBody bytes at → ⊥) }
    ensures again { (base : List SnapshotPiece) (s : Server) (now : ℕ) (e : ServerEvent) (records : List Record) (bodies : List (List ℕ))
        (bytes : List ℕ) (others : List (List ℕ)) (found : List SnapshotPiece) (kept : List Record) (z : Configuration) (count : ℕ)
        → IsRecordedOver base s records bodies → EventLeavesBodies s now e bodies bytes → StandsFor bytes others
        → SpellOver found others kept → (found ≡ base) × AgainOver base s now e records kept z count }
{
    behind_law();
    keeps_law();
    stands_law();
    snapshot_start_law();
}
