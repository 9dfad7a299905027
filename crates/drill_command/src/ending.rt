//! How a command ends, and the texts that are written before it ends so.
ghost use Rattle.drill_command.specs.TopCall as top;

use base_outside::{Failed, Sink, write_all};
use script_words::{Refusal, refusal_line};
use std::alloc::Global;

/// How a command ends. Its number is the program's status.
#[derive(Clone, Copy, PartialEq, Eq, Debug, Drop)]
pub enum Ending {
    /// The command was done.
    Done = 0,
    /// The words are no command.
    Usage = 2,
    /// A line of the script is refused.
    Script = 3,
    /// The source failed.
    SourceFailed = 4,
    /// The sink failed.
    SinkFailed = 5,
    /// Memory ran out.
    Memory = 8,
}

const USAGE: &str = "usage: smb311 drill, gen SEED OPS, serve ADDR [COUNT LEVEL], run ADDR\n";

pub(crate) fn usage<O: Sink>(sink: &mut O) -> Ending
    ensures { top.IsUsage (O.written sink.old) (O.written sink.new) (O.faults sink.old) (O.faults sink.new) result }
{
    match write_all(sink, USAGE.as_bytes()) {
        Ok(()) => Ending::Usage,
        Err(Failed) => Ending::SinkFailed,
    }
}

/// The text of a run.
pub(crate) fn done<O: Sink>(sink: &mut O, text: &str) -> Ending
    ensures { top.CommandWrites text.now (O.written sink.old) (O.written sink.new) (O.faults sink.old) (O.faults sink.new) result }
{
    match write_all(sink, text.as_bytes()) {
        Ok(()) => Ending::Done,
        Err(Failed) => Ending::SinkFailed,
    }
}

/// A refused line.
pub(crate) fn refused<O: Sink>(alloc: Global, refusal: &Refusal, sink: &mut O) -> Ending
    ensures { top.CommandRefuses refusal.now (O.written sink.old) (O.written sink.new) (O.faults sink.old) (O.faults sink.new) result }
{
    let Ok(line) = refusal_line(alloc, refusal) else {
        return Ending::Memory;
    };
    match write_all(sink, line.as_bytes()) {
        Ok(()) => Ending::Script,
        Err(Failed) => Ending::SinkFailed,
    }
}
