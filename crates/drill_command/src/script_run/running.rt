// The lines of a script, one after the other.
ghost use Rattle.std.specs.Prelude.{◌≡◌, ℕ, ◌+◌, IfSome, IfOk};
ghost use Rattle.law_scripts.specs.script_setup.Scripts.{lines_of_statement, operations_of};
ghost use Rattle.spec_world.specs.Courses.{Course};
ghost use Rattle.spec_world.specs.Settings.{WorldSettings};
ghost use Rattle.world_ends.specs.Shown.{ShowsWorld};
ghost use Rattle.drill_command.specs.script_run.Drives.{ScriptComes, fault_at};
ghost use Rattle.law_scripts.specs.script_runs.Runs.{did, did_all};

use crate::script_run::driving::drive;
use crate::settling::{World, WorldError};
use script_words::{Code, Fault, Line, Refusal, Statement};
use std::collections::VecDeque;

/// How many operations a line is.
fn operations_in(statement: &Statement) -> u32
    ensures { result ≡ operations_of statement.now }
{
    match statement {
        Statement::Setting(_) => 0,
        Statement::Operation(_) => 1,
        Statement::Event(_) => 0,
    }
}

fn added(before: u32, more: u32) -> Option<u32>
    ensures { IfSome result (λ behind. behind ≡ before + more) }
{
    if before > u32::MAX - more {
        return None;
    }
    Some(before + more)
}

/// How many operations there are behind a line; none where they have no number.
fn count_behind(before: u32, statement: &Statement) -> Option<u32>
    ensures { IfSome result (λ behind. behind ≡ before + operations_of statement.now) }
{
    let more = operations_in(statement);
    added(before, more)
}

fn fault_of(line: u64, why: WorldError) -> Fault<Refusal>
    ensures { result ≡ fault_at line why }
{
    match why {
        WorldError::Memory => Fault::Memory,
        WorldError::NoChannel(k) => Fault::Refused(Refusal {
            line,
            code: Code::NoChannel(k),
        }),
        WorldError::NothingThere(k) => Fault::Refused(Refusal {
            line,
            code: Code::NothingThere(k),
        }),
        WorldError::InUse(k) => Fault::Refused(Refusal {
            line,
            code: Code::InUse(k),
        }),
    }
}

/// Does what a line says behind so many operations, under the number of the last one behind it.
fn drive_behind(
    world: &mut World,
    behind: u32,
    line: u64,
    statement: Statement,
) -> Result<u32, Fault<Refusal>>
    ensures count { IfOk result (λ n. n ≡ behind) }
    ensures state { (z : WorldSettings) (c : Course) (before : ℕ) → ShowsWorld z world.old c.world → behind
        ≡ before + operations_of statement
        → ScriptComes z (did z line (lines_of_statement before statement) c) world.new result }
{
    match drive(world, behind, statement) {
        Ok(()) => Ok(behind),
        Err(why) => Err(fault_of(line, why)),
    }
}

/// Does what a line says behind so many operations, and says how many there are behind it. Operations without a number count as memory
/// that ran out.
pub fn drive_line(world: &mut World, before: u32, line: Line) -> Result<u32, Fault<Refusal>>
    ensures count { IfOk result (λ behind. behind ≡ before + operations_of line.statement) }
    ensures state { (z : WorldSettings) (c : Course) → ShowsWorld z world.old c.world
        → ScriptComes z (did z line.number (lines_of_statement before line.statement) c) world.new result }
{
    let Line { number, statement } = line;
    match count_behind(before, &statement) {
        Some(behind) => drive_behind(world, behind, number, statement),
        None => Err(Fault::Memory),
    }
}

/// The lines of a script over a world at its beginning, or anywhere: from each course of which the world is shown, it shows the world of
/// the course that the definitions have behind the lines, or the first line is refused that they refuse.
pub fn run_lines(world: &mut World, mut lines: VecDeque<Line>) -> Result<(), Fault<Refusal>>
    ensures { (z : WorldSettings) (c : Course) → ShowsWorld z world.old c.world
        → ScriptComes z (did_all z 0 lines.items c) world.new result }
{
    let mut count = 0;
    while let Some(line) = lines.pop_front() {
        let behind = drive_line(world, count, line)?;
        count = behind;
    }
    Ok(())
}
