//! What is left of a server behind its last turn.
ghost use Rattle.std.specs.Prelude.{◌≡◌};
ghost use Rattle.server_core.specs.Shown.{disk_of};
ghost use Rattle.serve_command.specs.Serving.{Behind, has_risen, has_stopped};

use crate::ending::Ending;
use crate::lasting_book::LastingBook;
use crate::lines::ended;
use crate::server_settings::Bound;
use base_outside::{Renewal, Sink, TellsRoom};
use serve_turns::{Ended, EventBook, Halt};
use server_core::{Book, DiskBook};
use std::alloc::Global;

/// The disk of a server that is no more, whether the server had stopped, and whether the disk failed meanwhile.
#[derive(Drop)]
pub(crate) struct Left<D> {
    pub stopped: bool,
    pub risen: bool,
    pub disk: D,
}

/// Whether a count of faults rose, or stands at its last value.
fn has_risen(before: u64, after: u64) -> bool
    ensures { result ≡ has_risen before after }
{
    before < after || after == u64::MAX
}

/// What is left of a server, whose disk had failed so often before.
pub(crate) fn left_of<D: Renewal + TellsRoom>(
    last: EventBook<LastingBook<D>>,
    before: u64,
) -> Left<D>
    ensures stopped { result.stopped ≡ has_stopped last }
    ensures risen { result.risen ≡ has_risen before (D.faults (disk_of last.server.disk_book.book.server)) }
    ensures disk { result.disk ≡ disk_of last.server.disk_book.book.server }
{
    let EventBook { alloc: _, server } = last;
    let LastingBook { disk_book, .. } = server;
    let DiskBook { book } = disk_book;
    let Book { alloc: _, server } = book;
    let stopped = server.stopped().is_some();
    let disk = server.stop();
    let risen = has_risen(before, disk.fault_count());
    Left {
        stopped,
        risen,
        disk,
    }
}

/// How the command ends behind the last turn, by whether the server stopped and its disk failed. A server stops only where its disk failed:
/// of one that says otherwise nothing is told, so that no connection's line says it either.
pub(crate) fn behind<O: Sink>(
    alloc: Global,
    bound: Option<Bound>,
    sink: &mut O,
    halt: Halt,
    ends: &[Option<Ended>],
    stopped: bool,
    risen: bool,
) -> Ending
    ensures { Behind (O.written sink.old) (O.written sink.new) (O.faults sink.old) (O.faults sink.new) bound halt ends.now stopped
        risen result }
{
    if !stopped {
        return ended(alloc, bound, sink, halt, ends);
    }
    if risen {
        return Ending::DiskFailed;
    }
    Ending::Memory
}
