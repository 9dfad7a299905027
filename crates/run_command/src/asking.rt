//! A script that is read.
ghost use Rattle.std.specs.Prelude.{◌≡◌, ◌++◌, OnOk, OnErr, IfOk};
ghost use Rattle.run_command.specs.Asking.{Asks, ScriptTakes, kinds_said, operations_said};

use crate::ending::Ending;
use base_outside::{Failed, ReadError, Sink, Source, read_script, write_all};
use client_values::OpKind;
use script_words::text_lines::{Script, script};
use script_words::{Command, Fault, Line, Statement, refusal_line};
use std::alloc::{AllocError, Global};
use std::collections::VecDeque;

/// Reads settings and operations from a source. Where it gives none the command has ended so.
pub fn asked<S: Source, O: Sink>(
    alloc: Global,
    source: &mut S,
    sink: &mut O,
) -> Result<Script, Ending>
    ensures { Asks (S.left source.old) (S.left source.new) (S.faults source.old) (S.faults source.new) (O.written sink.old)
        (O.written sink.new) (O.faults sink.old) (O.faults sink.new) result }
{
    // To its end before a line is judged, so that a fault of the source comes before a bad line.
    match read_script(alloc, source) {
        Ok(text) => taken(alloc, text.as_slice(), sink),
        Err(ReadError::Memory) => Err(Ending::Memory),
        Err(ReadError::Failed) => Err(Ending::SourceFailed),
    }
}

/// What a text says; where a line is refused it is written.
fn taken<O: Sink>(alloc: Global, text: &[u8], sink: &mut O) -> Result<Script, Ending>
    ensures { ScriptTakes (O.written sink.old) (O.written sink.new) (O.faults sink.old) (O.faults sink.new) text.now result }
{
    match script(alloc, Command::Run, text) {
        Ok(script) => Ok(script),
        Err(Fault::Memory) => Err(Ending::Memory),
        Err(Fault::Refused(refusal)) => match refusal_line(alloc, &refusal) {
            Ok(line) => match write_all(sink, line.as_bytes()) {
                Ok(()) => Err(Ending::Script),
                Err(Failed) => Err(Ending::SinkFailed),
            },
            Err(AllocError) => Err(Ending::Memory),
        },
    }
}

fn add_said(kinds: &mut Vec<OpKind>, statement: Statement) -> Result<(), AllocError>
    ensures { OnOk result (kinds.new.items ≡ kinds.old.items ++ kinds_said statement) }
{
    match statement {
        Statement::Setting(_) => Ok(()),
        Statement::Operation(kind) => Ok(kinds.push(kind)?),
        Statement::Event(_) => Ok(()),
    }
}

/// The operations that lines say.
pub fn operations_of(alloc: Global, mut lines: VecDeque<Line>) -> Result<Vec<OpKind>, AllocError>
    ensures { IfOk result (λ kinds. kinds.items ≡ operations_said lines.items) }
{
    let mut kinds = Vec::new(alloc);
    while let Some(line) = lines.pop_front() {
        add_said(&mut kinds, line.statement)?;
    }
    Ok(kinds)
}
