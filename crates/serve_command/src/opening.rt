//! Settings that are read, and a server that doesn't begin.
ghost use Rattle.std.specs.Prelude.{◌≡◌, IfOk};
ghost use Rattle.std.specs.String.{string_bytes};
ghost use Rattle.serve_command.specs.Opening.{IsUnbegun, OpeningSettles, Takes};
ghost use Rattle.serve_command.specs.Printing.{PrintsIfRoom, journal_line};
ghost use Rattle.serve_command.specs.declared.ending.Ending.TheVariants.{NoJournal};

use crate::ending::Ending;
use crate::server_settings::{Said, Setup, config_in, printed_by, settings_line};
use base_outside::{Failed, ReadError, Sink, Source, read_script, write_all};
use journal::JournalError;
use script_words::Fault;
use std::alloc::{AllocError, Global};

/// Reads settings from a source, for a server at the address that the words say. Where it gives none the command has ended so.
pub fn settled<S: Source, O: Sink>(
    alloc: Global,
    said: &Said,
    source: &mut S,
    sink: &mut O,
) -> Result<Setup, Ending>
    ensures { OpeningSettles said.now.address (S.left source.old) (S.left source.new) (S.faults source.old) (S.faults source.new)
        (O.written sink.old) (O.written sink.new) (O.faults sink.old) (O.faults sink.new) result }
{
    match read_script(alloc, source) {
        Ok(text) => taken(alloc, said, text.as_slice(), sink),
        Err(ReadError::Memory) => Err(Ending::Memory),
        Err(ReadError::Failed) => Err(Ending::SourceFailed),
    }
}

/// What a text of settings tells; where they are refused the line is printed.
fn taken<O: Sink>(alloc: Global, said: &Said, text: &[u8], sink: &mut O) -> Result<Setup, Ending>
    ensures { Takes said.now.address (O.written sink.old) (O.written sink.new) (O.faults sink.old) (O.faults sink.new)
        text.now result }
{
    match config_in(alloc, text, said.address) {
        Ok(setup) => Ok(setup),
        Err(Fault::Memory) => Err(Ending::Memory),
        Err(Fault::Refused(refusal)) => match settings_line(alloc, &refusal) {
            Ok(line) => {
                sink.explain(printed_by(alloc, text), line.as_str());
                match write_all(sink, line.as_bytes()) {
                    Ok(()) => Err(Ending::Settings),
                    Err(Failed) => Err(Ending::SinkFailed),
                }
            }
            Err(AllocError) => Err(Ending::Memory),
        },
    }
}

#[tactic(auto, unfolding(crate::specs::Printing::journal_line))]
fn journal_line(alloc: Global, at: u64) -> Result<String, AllocError>
    ensures { IfOk result (λ line. string_bytes line ≡ journal_line at) }
{
    format!(in alloc; "journal {at}\n")
}

/// The disk holds no journal.
fn no_journal<O: Sink>(alloc: Global, sink: &mut O, at: u64) -> Ending
    ensures { PrintsIfRoom (O.written sink.old) (O.written sink.new) (O.faults sink.old) (O.faults sink.new)
        (journal_line at) NoJournal result }
{
    match journal_line(alloc, at) {
        Ok(line) => match write_all(sink, line.as_bytes()) {
            Ok(()) => Ending::NoJournal,
            Err(Failed) => Ending::SinkFailed,
        },
        Err(AllocError) => Ending::Memory,
    }
}

/// A server that didn't begin.
pub(crate) fn unbegun<O: Sink>(alloc: Global, sink: &mut O, error: JournalError) -> Ending
    ensures { IsUnbegun (O.written sink.old) (O.written sink.new) (O.faults sink.old) (O.faults sink.new) error result }
{
    match error {
        JournalError::Memory => Ending::Memory,
        JournalError::DiskFault(_) | JournalError::Stopped(_) => Ending::DiskFailed,
        JournalError::Full(_, _) => Ending::JournalFull,
        JournalError::NotAJournal(at) => no_journal(alloc, sink, at),
    }
}
