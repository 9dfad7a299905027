//! The lines on the connections that were served.
ghost use Rattle.std.specs.Prelude.{◌≡◌, IfOk};
ghost use Rattle.std.specs.String.{string_bytes};
ghost use Rattle.serve_turns.specs.link_serving.Lines.{ended_lines};
ghost use Rattle.serve_command.specs.Printing.{PrintsIfRoom};
ghost use Rattle.serve_command.specs.Serving.{Tells, front_of};
ghost use Rattle.serve_command.specs.declared.ending.Ending.TheVariants.{Done};

use crate::ending::Ending;
use crate::server_settings::Bound;
use base_outside::{Failed, Sink, write_all};
use log::LevelFilter;
use serve_turns::{Ended, Halt, push_lines};
use std::alloc::{AllocError, Global};

/// How the first links ended, up to one of which no end is told.
fn front_of(alloc: Global, ends: &[Option<Ended>]) -> Result<Vec<Ended>, AllocError>
    ensures { IfOk result (λ front. front.items ≡ front_of ends.now) }
{
    let mut front = Vec::new(alloc);
    for end in ends {
        match end {
            Some(known) => front.push(*known)?,
            None => return Ok(front),
        }
    }
    Ok(front)
}

fn lines_of(alloc: Global, level: LevelFilter, ends: &[Option<Ended>]) -> Result<String, AllocError>
    ensures { IfOk result (λ text. string_bytes text ≡ ended_lines level 1 (front_of ends.now)) }
{
    let front = front_of(alloc, ends)?;
    let mut text = String::new(alloc);
    push_lines(&mut text, level, front.as_slice())?;
    Ok(text)
}

fn listed<O: Sink>(alloc: Global, sink: &mut O, bound: Bound, ends: &[Option<Ended>]) -> Ending
    ensures { PrintsIfRoom (O.written sink.old) (O.written sink.new) (O.faults sink.old) (O.faults sink.new)
        (ended_lines bound.level 1 (front_of ends.now)) Done result }
{
    match lines_of(alloc, bound.level, ends) {
        Ok(text) => match write_all(sink, text.as_bytes()) {
            Ok(()) => Ending::Done,
            Err(Failed) => Ending::SinkFailed,
        },
        Err(AllocError) => Ending::Memory,
    }
}

/// What the command tells at its end, by why no further link was accepted. A link ends so that none is accepted behind it where the server
/// stopped, since the disk failed: that is judged before.
pub(crate) fn ended<O: Sink>(
    alloc: Global,
    bound: Option<Bound>,
    sink: &mut O,
    halt: Halt,
    ends: &[Option<Ended>],
) -> Ending
    ensures { Tells (O.written sink.old) (O.written sink.new) (O.faults sink.old) (O.faults sink.new) bound halt ends.now result }
{
    match halt {
        Halt::NetFault => Ending::NetFailed,
        Halt::Memory | Halt::Ended => Ending::Memory,
        Halt::Count => match bound {
            Some(bound) => listed(alloc, sink, bound, ends),
            None => Ending::Done,
        },
    }
}
