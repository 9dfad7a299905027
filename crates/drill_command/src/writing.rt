// A script that is made is written.
ghost use Rattle.std.specs.Prelude.{◌≡◌, OnOk, OnErr, IfErr};
ghost use Rattle.std.specs.Io.KnownBytes.{Appends};
ghost use Rattle.std.specs.String.{string_bytes};
ghost use Rattle.law_scripts.specs.generated.ReadsBack.{script_text};
ghost use Rattle.script_words.specs.generator.Making.{lines_left};
ghost use Rattle.base_outside.specs.streams.Faults.{Rose};
ghost use Rattle.drill_command.specs.Writing.{FailsBy, Flushes, Fronts};

use base_outside::{Failed, Sink, write_all};
use script_words::{Maker, push_line};
use std::alloc::{AllocError, Global};

/// So many bytes of a script are gathered before they are written.
const PIECE: usize = 65_536;

/// Why a script isn't written.
#[derive(Clone, Copy, PartialEq, Eq, Debug, Drop)]
pub(crate) enum WriteError {
    Memory,
    Failed,
}

impl From<AllocError> for WriteError {
    ghost use Rattle.drill_command.specs.declared.writing.WriteError.TheVariants.{Memory};

    ghost from_gives = { λ _ e. e ≡ Memory };

    fn from(_: AllocError) -> WriteError {
        WriteError::Memory
    }
}

impl From<Failed> for WriteError {
    ghost use Rattle.drill_command.specs.declared.writing.WriteError.TheVariants.{Failed as Sink_failed};

    ghost from_gives = { λ _ e. e ≡ Sink_failed };

    fn from(_: Failed) -> WriteError {
        WriteError::Failed
    }
}

/// What was gathered is written.
fn flush<O: Sink>(sink: &mut O, text: &mut String) -> Result<(), Failed>
    ensures written { OnOk result (Flushes (O.written sink.old) (O.written sink.new) (string_bytes text.old) (string_bytes text.new)) }
    ensures calm { OnOk result (O.faults sink.new ≡ O.faults sink.old) }
    ensures failed { OnErr result (Rose (O.faults sink.old) (O.faults sink.new)) }
    ensures front { OnErr result (Fronts (O.written sink.old) (O.written sink.new) (string_bytes text.old)) }
{
    write_all(sink, text.as_bytes())?;
    text.clear();
    Ok(())
}

/// What was gathered is written where it is a piece.
fn flush_piece<O: Sink>(sink: &mut O, text: &mut String) -> Result<(), Failed>
    ensures written { OnOk result (Flushes (O.written sink.old) (O.written sink.new) (string_bytes text.old) (string_bytes text.new)) }
    ensures calm { OnOk result (O.faults sink.new ≡ O.faults sink.old) }
    ensures failed { OnErr result (Rose (O.faults sink.old) (O.faults sink.new)) }
    ensures front { OnErr result (Fronts (O.written sink.old) (O.written sink.new) (string_bytes text.old)) }
{
    let full = text.len() >= PIECE;
    if full {
        return flush(sink, text);
    }
    Ok(())
}

/// All lines that are left are written, a piece at a time. That the sink failed raised its count of faults. Behind an
/// error a front of them was
/// written.
pub(crate) fn write_script<O: Sink>(
    alloc: Global,
    mut maker: Maker,
    sink: &mut O,
) -> Result<(), WriteError>
    ensures written { OnOk result (Appends (O.written sink.old) (O.written sink.new) (script_text (lines_left maker))) }
    ensures calm { OnOk result (O.faults sink.new ≡ O.faults sink.old) }
    ensures failed { IfErr result (λ e. FailsBy (O.faults sink.old) (O.faults sink.new) e) }
    ensures front { OnErr result (Fronts (O.written sink.old) (O.written sink.new) (script_text (lines_left maker))) }
{
    let mut text = String::new(alloc);
    while let Some(line) = maker.next_line() {
        push_line(alloc, &mut text, &line)?;
        flush_piece(sink, &mut text)?;
    }
    write_all(sink, text.as_bytes())?;
    Ok(())
}
