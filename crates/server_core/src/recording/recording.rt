//! A body that goes onto the disk.
ghost use Rattle.std.specs.Prelude.{◌≡◌, ◌++◌, ℕ};
ghost use Rattle.std.specs.Prelude.{IsOk, List, OnOk, length};
ghost use Rattle.spec_wire.specs.journal.Moments.{LeavesOnly};
ghost use Rattle.journal.specs.disk_journal.Journal.{JournalSettled};
ghost use Rattle.journal_bytes.specs.record_bodies.Body.{bodies_of};
ghost use Rattle.server_core.specs.journaled_tables.Rooms.{HasRoomToWrite};
ghost use Rattle.server_core.specs.recording.Writes.{WritesBut};
ghost use Rattle.server_core.specs.body_writing.Bodies.{LeavesOf};

use crate::body_writing::{stopped_behind, write_body};
use crate::journaled_tables::ServerState;
use base_outside::Disk;
use server_checks::EventError;

/// Writes a body for which there is room; none wants no write, and none fails. Where the disk fails the server stops, at the disk's
/// count of faults. The tables stay as they are, with their count of the journal's bytes.
pub fn write<D: Disk>(server: &mut ServerState<D>, body: &[u8]) -> Result<(), EventError>
    requires { HasRoomToWrite server.old body.now }
    ensures writes { WritesBut D.faults server.old body.now result server.new }
    ensures same { server.new.tables ≡ server.old.tables }
    ensures acknowledged { D.told → (bodies : List (List ℕ)) → JournalSettled D.seen D.may_leave server.old.journal bodies
        → OnOk result (JournalSettled D.seen D.may_leave server.new.journal (bodies ++ bodies_of body.now)) }
    ensures any_moment { D.told → (bodies : List (List ℕ)) → JournalSettled D.seen D.may_leave server.old.journal bodies
        → LeavesOnly D.moment D.left_since server.old.journal.disk server.new.journal.disk (LeavesOf bodies body.now) }
    ensures none { length body.now ≡ 0 → IsOk result }
{
    match write_body(&mut server.journal, body) {
        Ok(()) => Ok(()),
        Err(error) => {
            server.stopped = stopped_behind(&error, server.stopped);
            Err(error)
        }
    }
}
