//! A server's journal is written anew, and the tables count the bytes that it uses then.
ghost use Rattle.std.specs.Prelude.{◌≡◌, ℕ, Err, IfOk, List, None, Some};
ghost use Rattle.spec_exchange.specs.State as model;
ghost use Rattle.spec_wire.specs.journal.Moments.{LeavesOnly};
ghost use Rattle.spec_world.specs.Ends.{Logons};
ghost use Rattle.law_snapshots.specs.snapshots.Pieces.{SnapshotPiece};
ghost use Rattle.server_checks.specs.declared.setups.error.EventError.TheVariants as errors;
ghost use Rattle.server_core.specs.journaled_tables.Holds.{HoldsOver, JournaledGoesOn};
ghost use Rattle.server_core.specs.compaction.Compacts.{CompactionHalts, CompactionLeaves, Compacts, stop_of};

use crate::compaction::rewriting::rewrite_journal;
use crate::journaled_tables::ServerState;
use base_outside::Renewal;
use law_snapshots::{order_law, piece_fits_law, taken_law};
use server_checks::EventError;

/// Writes the journal anew, as a snapshot of what the server holds. Where that is given up all goes on as before; where the disk fails the
/// server stops.
pub fn compact_state<D: Renewal>(server: &mut ServerState<D>) -> Result<bool, EventError>
    ensures compacts { (base : List SnapshotPiece) (s : model.Server) (L : Logons) (records : List model.Record)
        → HoldsOver D.told D.seen D.may_leave base server.old s L records
        → Compacts D.told D.seen D.may_leave D.faults base server.old server.new s L records result }
    ensures any_moment { D.told → (base : List SnapshotPiece) (s : model.Server) (L : Logons) (records : List model.Record)
        (bodies : List (List ℕ)) → HoldsOver D.told D.seen D.may_leave base server.old s L records
        → JournaledGoesOn D.seen D.may_leave base server.old s records bodies
        → LeavesOnly D.moment D.left_since server.old.journal.disk server.new.journal.disk (CompactionLeaves s bodies) }
    ensures stopped { (count : ℕ) → server.old.stopped ≡ Some count
        → (result ≡ Err (errors.Stopped count)) × (server.new ≡ server.old) }
    ensures config { server.new.tables.config ≡ server.old.tables.config }
    ensures calm { IfOk result (λ done. D.faults server.new.journal.disk ≡ D.faults server.old.journal.disk) }
    ensures halts { CompactionHalts server.old.stopped server.new.stopped result }
{
    match server.stopped {
        Some(count) => Err(EventError::Stopped(count)),
        None => compact_on(server),
    }
}

// The same of a server that goes on.
fn compact_on<D: Renewal>(server: &mut ServerState<D>) -> Result<bool, EventError>
    requires { server.old.stopped ≡ None }
    ensures compacts { (base : List SnapshotPiece) (s : model.Server) (L : Logons) (records : List model.Record)
        → HoldsOver D.told D.seen D.may_leave base server.old s L records
        → Compacts D.told D.seen D.may_leave D.faults base server.old server.new s L records result }
    ensures any_moment { D.told → (base : List SnapshotPiece) (s : model.Server) (L : Logons) (records : List model.Record)
        (bodies : List (List ℕ)) → HoldsOver D.told D.seen D.may_leave base server.old s L records
        → JournaledGoesOn D.seen D.may_leave base server.old s records bodies
        → LeavesOnly D.moment D.left_since server.old.journal.disk server.new.journal.disk (CompactionLeaves s bodies) }
    ensures config { server.new.tables.config ≡ server.old.tables.config }
    ensures calm { IfOk result (λ done. D.faults server.new.journal.disk ≡ D.faults server.old.journal.disk) }
    ensures halts { CompactionHalts server.old.stopped server.new.stopped result }
{
    order_law();
    taken_law();
    piece_fits_law();
    let t = &server.tables;
    let written = rewrite_journal(&mut server.journal, t.alloc, t.version, &t.tree, &t.opens);
    match written {
        Ok(true) => {
            server.tables.journal = server.journal.used();
            Ok(true)
        }
        Ok(false) => Ok(false),
        Err(error) => {
            server.stopped = stop_at(&error);
            Err(error)
        }
    }
}

// The count of faults at which the journal stopped.
fn stop_at(error: &EventError) -> Option<u64>
    ensures { result ≡ stop_of error.now }
{
    match error {
        EventError::DiskFault(count) => Some(*count),
        EventError::Stopped(count) => Some(*count),
        EventError::Memory => None,
    }
}
