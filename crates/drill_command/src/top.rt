// The top call.
ghost use Rattle.std.specs.Prelude.{◌≡◌, map, false, Some};
ghost use Rattle.std.specs.String.{string_bytes};
ghost use Rattle.rand_core.specs.Stream.{fill_bytes};
ghost use Rattle.drill_command.specs.Asking.{asked_in};
ghost use Rattle.drill_command.specs.TopCall as top;

use crate::ending::{Ending, done, refused, usage};
use crate::generating::generated;
use crate::running::drill;
use crate::words::{Asked, command_of};
use base_outside::{ReadError, Sink, Source, read_script};
use rand_core::Rng;
use script_words::Fault;
use std::alloc::Global;

/// Does the command that the words name and answers the program's status.
///
/// `drill` reads a script, runs it over both ends of its connections, and writes the outcome of each operation, the orders and the files.
/// `gen SEED OPS` writes a script that the seed gives, runs it, and writes how many operations came out how. What the run draws comes from
/// 32 bytes of `random`. The status is 0 where that was done, 2 where the words are another list, 3 where a line is refused, 4 where the
/// source failed, 5 where the sink did, and 8 where memory ran out. What is written goes to the sink alone.
pub fn smb311_drill<S: Source, O: Sink, R: Rng>(
    alloc: Global,
    words: &[String],
    source: &mut S,
    sink: &mut O,
    random: &mut R,
) -> u8
    // The status is that of an ending, and what the ending says holds of the run that draws from these bytes.
    ensures ends { (ending : Ending) × (result ≡ top.status_of ending)
        × top.CommandEnds (asked_in (map string_bytes words.now)) (fill_bytes 32 (R.stream random.old)).0 (S.left source.old) (S.left source.new)
        (O.written sink.old) (O.written sink.new)
        (S.faults source.old) (S.faults source.new) (O.faults sink.old) (O.faults sink.new) ending }
    // The words are judged first: where they aren't `drill`, nothing is read.
    ensures words_first { top.command_reads (asked_in (map string_bytes words.now)) ≡ false → source.new ≡ source.old }
{
    command(alloc, words, source, sink, random) as u8
}

fn command<S: Source, O: Sink, R: Rng>(
    alloc: Global,
    words: &[String],
    source: &mut S,
    sink: &mut O,
    random: &mut R,
) -> Ending
    ensures ends { top.CommandEnds (asked_in (map string_bytes words.now)) (fill_bytes 32 (R.stream random.old)).0 (S.left source.old)
        (S.left source.new) (O.written sink.old) (O.written sink.new)
        (S.faults source.old) (S.faults source.new) (O.faults sink.old) (O.faults sink.new) result }
    ensures words_first { top.command_reads (asked_in (map string_bytes words.now)) ≡ false → source.new ≡ source.old }
{
    match command_of(words) {
        Some(asked) => commanded(alloc, asked, source, sink, seed_from(random)),
        None => usage(sink),
    }
}

fn seed_from<R: Rng>(random: &mut R) -> [u8; 32]
    ensures { result ≡ (fill_bytes 32 (R.stream random.old)).0 }
{
    let mut seed = [0; 32];
    random.fill_bytes(&mut seed);
    seed
}

/// Does a command, whose run draws from a seed.
fn commanded<S: Source, O: Sink>(
    alloc: Global,
    asked: Asked,
    source: &mut S,
    sink: &mut O,
    seed: [u8; 32],
) -> Ending
    ensures ends { top.CommandEnds (Some asked) seed (S.left source.old) (S.left source.new)
        (O.written sink.old) (O.written sink.new)
        (S.faults source.old) (S.faults source.new) (O.faults sink.old) (O.faults sink.new) result }
    ensures words_first { top.command_reads (Some asked) ≡ false → source.new ≡ source.old }
{
    match asked {
        Asked::Drill => drilled(alloc, source, sink, seed),
        Asked::Gen {
            seed: key,
            operations,
        } => generated(alloc, key, operations, sink, seed),
    }
}

// Reads a script, and does what it says.
fn drilled<S: Source, O: Sink>(
    alloc: Global,
    source: &mut S,
    sink: &mut O,
    seed: [u8; 32],
) -> Ending
    ensures { top.Drills seed (S.left source.old) (S.left source.new) (O.written sink.old) (O.written sink.new)
        (S.faults source.old) (S.faults source.new) (O.faults sink.old) (O.faults sink.new) result }
{
    // To its end before a line is judged, so that a fault of the source comes before a bad line.
    match read_script(alloc, source) {
        Ok(script) => answered(alloc, script.as_slice(), sink, seed),
        Err(ReadError::Failed) => Ending::SourceFailed,
        Err(ReadError::Memory) => Ending::Memory,
    }
}

// Runs a script and writes what it prints, or its first refused line.
fn answered<O: Sink>(alloc: Global, script: &[u8], sink: &mut O, seed: [u8; 32]) -> Ending
    ensures { top.CommandAnswers script.now seed (O.written sink.old) (O.written sink.new) (O.faults sink.old) (O.faults sink.new) result }
{
    // All text before a byte is printed, so that where memory runs out nothing is.
    match drill(alloc, script, seed) {
        Ok(text) => done(sink, text.as_str()),
        Err(Fault::Refused(refusal)) => refused(alloc, &refusal, sink),
        Err(Fault::Memory) => Ending::Memory,
    }
}
