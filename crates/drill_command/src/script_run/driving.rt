// What one line of a script does to a world.
ghost use Rattle.std.specs.Prelude.{◌≡◌, Ok};
ghost use Rattle.law_scripts.specs.script_setup.Scripts.{event_line};
ghost use Rattle.script_words.specs.declared.values.ScriptEvent.TheVariants as script;
ghost use Rattle.drill_command.specs.script_run.Drives.{Drives, ScriptSays, line_of};

use crate::settling::{World, WorldError, WorldEvent, link, settle, step};
use script_words::{ScriptEvent, Setting, Statement};

/// One event of a world.
fn drive_step(world: &mut World, event: WorldEvent) -> Result<(), WorldError>
    ensures { Drives world.old (line_of event) world.new result }
{
    step(world, event)
}

fn drive_link(world: &mut World, k: u32) -> Result<(), WorldError>
    ensures { Drives world.old (event_line (script.Link k)) world.new result }
{
    link(world, k)
}

fn drive_settle(world: &mut World) -> Result<(), WorldError>
    ensures { Drives world.old (event_line script.Settle) world.new result }
{
    settle(world)
}

/// An event of a script is what the definitions make of its line. Behind an error other than `Memory` the world is as before, and the
/// line is refused for this reason.
pub fn drive_event(world: &mut World, event: ScriptEvent) -> Result<(), WorldError>
    ensures { Drives world.old (event_line event) world.new result }
{
    // An arm for each event of a script, since these aren't a world's: `link` and `settle` are many of those.
    match event {
        ScriptEvent::Open(k) => drive_step(world, WorldEvent::Open(k)),
        ScriptEvent::Push(k) => drive_step(world, WorldEvent::Push(k)),
        ScriptEvent::Serve(k) => drive_step(world, WorldEvent::Serve(k)),
        ScriptEvent::Take(k) => drive_step(world, WorldEvent::Take(k)),
        ScriptEvent::Cut(k) => drive_step(world, WorldEvent::Cut(k)),
        ScriptEvent::Drop(k) => drive_step(world, WorldEvent::Drop(k)),
        ScriptEvent::Restart => drive_step(world, WorldEvent::Restart),
        ScriptEvent::Crash { connection, kept } => {
            drive_step(world, WorldEvent::Crash { connection, kept })
        }
        ScriptEvent::Forge {
            connection,
            up,
            bytes,
        } => drive_step(
            world,
            WorldEvent::Forge {
                connection,
                up,
                bytes,
            },
        ),
        ScriptEvent::Flip {
            connection,
            up,
            at,
            mask,
        } => drive_step(
            world,
            WorldEvent::Flip {
                connection,
                up,
                at,
                mask,
            },
        ),
        ScriptEvent::Wait(milliseconds) => {
            drive_step(world, WorldEvent::Wait(u64::from(milliseconds)))
        }
        ScriptEvent::Link(k) => drive_link(world, k),
        ScriptEvent::Settle => drive_settle(world),
    }
}

fn skip(_setting: Setting) -> Result<(), WorldError>
    ensures { result ≡ Ok tt }
{
    Ok(())
}

/// What a line says, of which an operation goes under this number. A setting does nothing.
pub fn drive(world: &mut World, number: u32, statement: Statement) -> Result<(), WorldError>
    ensures { ScriptSays world.old number statement world.new result }
{
    match statement {
        Statement::Setting(setting) => skip(setting),
        Statement::Operation(kind) => drive_step(world, WorldEvent::Submit { number, kind }),
        Statement::Event(event) => drive_event(world, event),
    }
}
