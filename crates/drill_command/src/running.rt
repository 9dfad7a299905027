// A script's run.
ghost use Rattle.std.specs.Prelude.{MatchResult, Result as Answer};
ghost use Rattle.std.specs.String.{string_bytes};
ghost use Rattle.client_ends.specs.dialog_calls.Ending.{CanConnect};
ghost use Rattle.drill_command.specs.Playing.{Drilled, DrillEnds, IsDrillMemory, DrillTells, run_of};
ghost use Rattle.drill_command.specs.drill_text.Text.{IsText};
ghost use Rattle.script_words.specs.text_lines.Settings.{settings_of};
ghost use Rattle.script_words.specs.text_lines.Views.{read_of};
ghost use Rattle.script_words.specs.declared.text_lines.line.Refusal.{Refusal as Refusing};
ghost use Rattle.spec_world.specs.Courses.{Course};
ghost use Rattle.spec_world.specs.Settings.{WorldSettings};
ghost use Rattle.spec_world.specs.World as bytes;
ghost use Rattle.world_ends.specs.results.Ended.{ShowsEnded};

use crate::drill_text::{EndedWorld, end, text_of};
use crate::script_run::{run_lines, watch, world_of};
use crate::steps::steps_text;
use law_scripts::{run_course_law, script_headline_law, script_settings_law};
use script_words::text_lines::{Script, script};
use script_words::{Command, Fault, Refusal, refusal_line, with_defaults};
use std::alloc::{AllocError, Global};

fn text_behind(alloc: Global, ended: &EndedWorld) -> Result<String, Fault<Refusal>>
    ensures { MatchResult result (λ text. (z : WorldSettings) (w : bytes.World) → ShowsEnded z ended.now w
        → IsText w.values (string_bytes text))
        (λ fault. IsDrillMemory fault) }
{
    match text_of(alloc, ended) {
        Ok(text) => Ok(text),
        Err(AllocError) => Err(Fault::Memory),
    }
}

fn told(
    alloc: Global,
    refused: Result<(), Fault<Refusal>>,
    ended: &EndedWorld,
) -> Result<String, Fault<Refusal>>
    ensures { (z : WorldSettings) (due : Answer Course Refusing) → DrillEnds z due ended.now refused → DrillTells string_bytes due result }
{
    match refused {
        Ok(()) => text_behind(alloc, ended),
        Err(fault) => Err(fault),
    }
}

// What is left of the world is given away here.
fn told_behind(
    alloc: Global,
    refused: Result<(), Fault<Refusal>>,
    ended: EndedWorld,
) -> Result<String, Fault<Refusal>>
    ensures { (z : WorldSettings) (due : Answer Course Refusing) → DrillEnds z due ended refused → DrillTells string_bytes due result }
{
    told(alloc, refused, &ended)
}

// It owns the world, and gives it away at one place alone, since each drop of a server is dear to prove.
fn ran(alloc: Global, read: Script, seed: [u8; 32]) -> Result<String, Fault<Refusal>>
    ensures { CanConnect (settings_of read.given).share → DrillTells string_bytes (run_of (read_of read) seed) result }
{
    let Script { given, lines } = read;
    let settings = with_defaults(alloc, given)?;
    let mut world = world_of(alloc, &settings, seed)?;
    let refused = run_lines(&mut world, lines);
    told_behind(alloc, refused, end(world))
}

/// What a drill of a script prints, or its first refused line. What the run draws comes from the seed.
pub(crate) fn drill(alloc: Global, text: &[u8], seed: [u8; 32]) -> Result<String, Fault<Refusal>>
    ensures { Drilled string_bytes text.now seed result }
{
    script_headline_law();
    script_settings_law();
    run_course_law();
    let read = script(alloc, Command::Drill, text)?;
    ran(alloc, read, seed)
}

// ---- for whoever works on it: each step of a run

/// A refused line as it is printed.
fn line_of(alloc: Global, fault: Fault<Refusal>) -> Fault<String> {
    match fault {
        Fault::Memory => Fault::Memory,
        Fault::Refused(refusal) => match refusal_line(alloc, &refusal) {
            Ok(line) => Fault::Refused(line),
            Err(AllocError) => Fault::Memory,
        },
    }
}

fn joined(
    alloc: Global,
    steps: Result<String, AllocError>,
    outcomes: Result<String, Fault<Refusal>>,
) -> Result<String, Fault<String>> {
    match outcomes {
        Ok(outcomes) => {
            let mut text = steps?;
            text.push_str(outcomes.as_str())?;
            Ok(text)
        }
        Err(fault) => Err(line_of(alloc, fault)),
    }
}

fn ran_watched(alloc: Global, read: Script, seed: [u8; 32]) -> Result<String, Fault<String>> {
    let Script { given, lines } = read;
    let settings = with_defaults(alloc, given)?;
    let mut world = world_of(alloc, &settings, seed)?;
    watch(&mut world);
    let refused = run_lines(&mut world, lines);
    let steps = steps_text(alloc, &world.notes);
    joined(alloc, steps, told_behind(alloc, refused, end(world)))
}

/// Each step of a script's run and what it came to, and then what a drill of it prints; or the line of its first refused one.
pub fn steps_of(alloc: Global, text: &[u8], seed: [u8; 32]) -> Result<String, Fault<String>> {
    match script(alloc, Command::Drill, text) {
        Ok(read) => ran_watched(alloc, read, seed),
        Err(fault) => Err(line_of(alloc, fault)),
    }
}
