//! What a server begins with, told by the one that ran before on the same disk.
//!
//! The law is a public function with an empty body but for the laws that it rests on; its contract is the statement.

ghost use Rattle.std.specs.Prelude.{◌≡◌, ◌≤◌, ℕ, List, [], ◌++◌, None, length};
ghost use Rattle.spec_exchange.specs.Fold.{recovered, recovered_from, recovery_records};
ghost use Rattle.spec_exchange.specs.Fold.{configuration_of as configuration_behind};
ghost use Rattle.spec_exchange.specs.State as model;
ghost use Rattle.server_core.specs.server_start.Begun.{ServerBegins};
ghost use Rattle.server_checks.specs.declared.tables.Config.{Config};
ghost use Rattle.server_core.specs.journaled_tables.Holds.{HoldsOver, JournaledHolds};
ghost use Rattle.server_core.specs.Over.{begun_over, opened_over};
ghost use Rattle.server_core.specs.crash.Left.{StartsAgain};
ghost use Rattle.law_snapshots.specs.snapshots.Pieces.{SnapshotPiece};
ghost use Rattle.server_core.specs.declared.journaled_tables.state.ServerState.{ServerState};
ghost use Rattle.server_core.specs.restart_tables.Restart.{IsFull, RestartRefused, configuration_of};
ghost use Rattle.journal.specs.declared.disk_journal.journal.JournalError.TheVariants as causes;
ghost use Rattle.spec_world.specs.Ends.{Logons};

use crate::restarts::snapshot_start_law;
use base_outside::Disk;
use journal::one_meaning;

/// On disks that tell their bytes. A server that begins on the disk of one that goes on, under the same configuration, holds the state
/// that the model recovers from that one's state and records, whatever logons are remembered (`again`). One that begins on a disk of
/// at most 9 bytes holds the state that the model recovers from no records behind an empty journal's 9 bytes (`anew`). None begins on a
/// disk whose journal has no room for what a recovery adds, nor is such a disk refused as no journal (`full`). Where the disk of the first
/// one stands for a snapshot, the base, and records behind it, the second one holds the state that a start makes of both, over the same
/// base, and stands where the first one stood (`over`).
pub fn begun_law<D: Disk>()
    ensures again { D.told → (old new : ServerState D) (s : model.Server) (L M : Logons) (records : List model.Record)
        → JournaledHolds D.told D.seen D.may_leave old s L records → old.stopped ≡ None
        → ServerBegins D.told D.seen D.may_leave D.faults old.tables.config old.journal.disk new
        → JournaledHolds D.told D.seen D.may_leave new (recovered_from s records) M (records ++ recovery_records records) }
    ensures over { D.told → (base : List SnapshotPiece) (old new : ServerState D) (s : model.Server) (L M : Logons)
        (records : List model.Record) → HoldsOver D.told D.seen D.may_leave base old s L records → old.stopped ≡ None
        → ServerBegins D.told D.seen D.may_leave D.faults old.tables.config old.journal.disk new
        → HoldsOver D.told D.seen D.may_leave base new (begun_over (configuration_behind s) s.journal base records) M
        (opened_over base records) × StartsAgain s base records (configuration_behind s) s.journal }
    ensures anew { D.told → (disk : D) (config : Config) (new : ServerState D) (L : Logons) → length (D.seen disk) ≤ 9
        → ServerBegins D.told D.seen D.may_leave D.faults config disk new
        → JournaledHolds D.told D.seen D.may_leave new (recovered (configuration_of config) 9 []) L (recovery_records []) }
    ensures full { D.told → (disk left : D) (config : Config) (new : ServerState D) (would limit at : ℕ) → IsFull (D.seen disk) would limit
        → (ServerBegins D.told D.seen D.may_leave D.faults config disk new → ⊥)
        × (RestartRefused D.told D.seen D.faults disk left (causes.NotAJournal at) → ⊥) }
{
    one_meaning();
    snapshot_start_law();
}
