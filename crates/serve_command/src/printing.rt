//! The usage of the command.
ghost use Rattle.serve_command.specs.Printing.{Prints, usage_line};
ghost use Rattle.serve_command.specs.declared.ending.Ending.TheVariants.{Usage};

use crate::ending::Ending;
use base_outside::{Failed, Sink, write_all};

const USAGE: &str = "usage: smb311 drill, gen SEED OPS, serve ADDR [COUNT LEVEL], run ADDR\n";

/// Says what the command's words are.
pub fn usage<O: Sink>(sink: &mut O) -> Ending
    ensures { Prints (O.written sink.old) (O.written sink.new) (O.faults sink.old) (O.faults sink.new) usage_line Usage result }
{
    match write_all(sink, USAGE.as_bytes()) {
        Ok(()) => Ending::Usage,
        Err(Failed) => Ending::SinkFailed,
    }
}
