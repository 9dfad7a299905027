//! What is on the disk before any byte of an answer goes out.
//!
//! The law is a public function with an empty body, whose contract is the statement.

ghost use Rattle.std.specs.Prelude.{ℕ, List};
ghost use Rattle.spec_world.specs.Settings.{ServerSettings};
ghost use Rattle.serve_turns.specs.connection_turns.Due.{AnswerIsDue};
ghost use Rattle.serve_turns.specs.event_book.History.{Stand};
ghost use Rattle.server_core.specs.Shown.{disk_of};
ghost use Rattle.law_snapshots.specs.snapshots.Pieces.{SnapshotPiece};
ghost use Rattle.serve_command.specs.Steps.{ServerBook, server_faults, server_shows, server_stopped};
ghost use Rattle.serve_command.specs.Whole.{DiskStands};

use base_outside::{Renewal, TellsRoom};

/// What is told before an answer goes out, at every moment, also of a server that never returns: the disk stands for the state behind all
/// events that the answer tells of, by a snapshot and the records of the events since it was written, and a crash leaves them.
pub fn due_law<D: Renewal + TellsRoom>()
    ensures on_disk { D.told → (z : ServerSettings) (k seat : ℕ) (opening : ServerBook D) (from : Stand) (came wrote answer : List ℕ)
        (due : AnswerIsDue (server_shows D.told D.seen D.may_leave) server_stopped (server_faults D.faults) z k seat opening from came wrote
        answer)
        → (base : List SnapshotPiece)
        × DiskStands D.told D.seen D.may_leave (disk_of due.last.server.disk_book.book.server) base due.stand.server due.stand.records }
{}
