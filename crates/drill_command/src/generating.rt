// A script that a seed gives: it is written, run, and summed up.
ghost use Rattle.std.specs.Prelude.{◌≡◌, ◌+◌, ◌≤◌, IfOk, MatchResult, Result as Answer};
ghost use Rattle.std.specs.String.{string_bytes};
ghost use Rattle.client_ends.specs.dialog_calls.Ending.{CanConnect};
ghost use Rattle.drill_command.specs.Made.{IsSum, Sums, Totals};
ghost use Rattle.drill_command.specs.Playing.{DrillEnds, IsDrillMemory};
ghost use Rattle.drill_command.specs.TopCall as top;
ghost use Rattle.law_scripts.specs.generated.ReadsBack.{numbered};
ghost use Rattle.script_words.specs.generator.Making.{lines_left};
ghost use Rattle.script_words.specs.declared.text_lines.line.Refusal.{Refusal as Refusing};
ghost use Rattle.law_scripts.specs.script_runs.Runs.{did_all};
ghost use Rattle.spec_world.specs.Courses.{Course};
ghost use Rattle.spec_world.specs.Settings.{WorldSettings};
ghost use Rattle.spec_world.specs.World as bytes;
ghost use Rattle.world_ends.specs.results.Ended.{ShowsEnded};
ghost use Rattle.world_ends.specs.Shown.{ShowsWorld};
ghost use Rattle.drill_command.specs.script_run.Drives.{ScriptComes};

use crate::drill_setup::plain_settings;
use crate::drill_text::{EndedWorld, end, files};
use crate::ending::{Ending, done, refused};
use crate::script_run::{World, drive_line, world_of};
use crate::summing::summary_text;
use crate::writing::{WriteError, write_script};
use base_outside::Sink;
use law_scripts::{default_settings_law, made_headline_law, run_course_law};
use script_words::{Fault, Line, Maker, Refusal, statement_of};
use std::alloc::{AllocError, Global};

/// The most operations that are made.
const MOST_OPERATIONS: u64 = 1_048_576;

/// The script is written first, and made a second time for its run: neither keeps it. More operations than a command names count as memory
/// that ran out.
pub(crate) fn generated<O: Sink>(
    alloc: Global,
    key: u64,
    operations: u64,
    sink: &mut O,
    seed: [u8; 32],
) -> Ending
    ensures { top.CommandMakes key operations seed (O.written sink.old) (O.written sink.new) (O.faults sink.old)
        (O.faults sink.new) result }
{
    let few = operations <= MOST_OPERATIONS;
    if few {
        return made(alloc, key, operations as u32, sink, seed);
    }
    Ending::Memory
}

fn made<O: Sink>(alloc: Global, key: u64, operations: u32, sink: &mut O, seed: [u8; 32]) -> Ending
    requires { operations ≤ 1048576 }
    ensures { top.CommandMakes key operations seed (O.written sink.old) (O.written sink.new) (O.faults sink.old)
        (O.faults sink.new) result }
{
    match write_script(alloc, Maker::new(key, operations), sink) {
        Ok(()) => summed_up(alloc, key, operations, sink, seed),
        Err(WriteError::Failed) => Ending::SinkFailed,
        Err(WriteError::Memory) => Ending::Memory,
    }
}

/// The run of a script that is made, and its sum.
fn summed_up<O: Sink>(
    alloc: Global,
    key: u64,
    operations: u32,
    sink: &mut O,
    seed: [u8; 32],
) -> Ending
    requires { operations ≤ 1048576 }
    ensures { top.SumsUp key operations seed (O.written sink.old) (O.written sink.new) (O.faults sink.old) (O.faults sink.new) result }
{
    match summary_of(alloc, key, operations, seed) {
        Ok(text) => done(sink, text.as_str()),
        Err(Fault::Refused(refusal)) => refused(alloc, &refusal, sink),
        Err(Fault::Memory) => Ending::Memory,
    }
}

fn summary_of(
    alloc: Global,
    key: u64,
    operations: u32,
    seed: [u8; 32],
) -> Result<String, Fault<Refusal>>
    requires { operations ≤ 1048576 }
    ensures { Sums string_bytes key operations seed result }
{
    made_headline_law();
    default_settings_law();
    run_course_law();
    ran_made(alloc, Maker::new(key, operations), seed)
}

// It owns the world, and gives it away at one place alone.
fn ran_made(alloc: Global, maker: Maker, seed: [u8; 32]) -> Result<String, Fault<Refusal>>
    ensures { CanConnect top.plain.share → Totals string_bytes (top.run_left (lines_left maker) seed) result }
{
    let settings = plain_settings(alloc)?;
    let mut world = world_of(alloc, &settings, seed)?;
    let refused = run_made(alloc, &mut world, maker);
    summed_behind(alloc, refused, end(world))
}

// What is left of the world is given away here.
fn summed_behind(
    alloc: Global,
    refused: Result<(), Fault<Refusal>>,
    ended: EndedWorld,
) -> Result<String, Fault<Refusal>>
    ensures { (z : WorldSettings) (due : Answer Course Refusing) → DrillEnds z due ended refused → Totals string_bytes due result }
{
    summed(alloc, refused, &ended)
}

fn summed(
    alloc: Global,
    refused: Result<(), Fault<Refusal>>,
    ended: &EndedWorld,
) -> Result<String, Fault<Refusal>>
    ensures { (z : WorldSettings) (due : Answer Course Refusing) → DrillEnds z due ended.now refused → Totals string_bytes due result }
{
    match refused {
        Ok(()) => sum_behind(alloc, ended),
        Err(fault) => Err(fault),
    }
}

fn sum_behind(alloc: Global, ended: &EndedWorld) -> Result<String, Fault<Refusal>>
    ensures { MatchResult result (λ text. (z : WorldSettings) (w : bytes.World) → ShowsEnded z ended.now w
        → IsSum w.values (string_bytes text))
        (λ fault. IsDrillMemory fault) }
{
    match sum_text(alloc, ended) {
        Ok(text) => Ok(text),
        Err(AllocError) => Err(Fault::Memory),
    }
}

fn sum_text(alloc: Global, ended: &EndedWorld) -> Result<String, AllocError>
    ensures { IfOk result (λ text. (z : WorldSettings) (w : bytes.World) → ShowsEnded z ended.now w → IsSum w.values (string_bytes text)) }
{
    let files = files(ended)?;
    summary_text(
        alloc,
        ended.client.table.settled.as_slice(),
        files.as_slice(),
    )
}

/// Lines without a number count as memory that ran out.
fn number_behind(before: u64) -> Result<u64, AllocError>
    ensures { IfOk result (λ number. number ≡ before + 1) }
{
    if before == u64::MAX {
        return Err(AllocError);
    }
    Ok(before + 1)
}

/// The lines that are left, one after the other.
fn run_made(alloc: Global, world: &mut World, mut maker: Maker) -> Result<(), Fault<Refusal>>
    ensures { (z : WorldSettings) (c : Course) → ShowsWorld z world.old c.world
        → ScriptComes z (did_all z 0 (numbered 0 (lines_left maker)) c) world.new result }
{
    let mut count: u32 = 0;
    let mut before: u64 = 0;
    while let Some(made) = maker.next_line() {
        let number = number_behind(before)?;
        let statement = statement_of(alloc, &made)?;
        let behind = drive_line(world, count, Line { number, statement })?;
        count = behind;
        before = number;
    }
    Ok(())
}
