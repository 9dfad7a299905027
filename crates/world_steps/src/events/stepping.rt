// One match over the events of a world.
ghost use Rattle.std.specs.Prelude.{MatchResult};
ghost use Rattle.world_ends.specs.declared.events.WorldEvent.TheVariants as events;
ghost use Rattle.world_steps.specs.notes.Noted.{Noted};
ghost use Rattle.world_steps.specs.Parts.{IsWorldMemory};
ghost use Rattle.world_steps.specs.Steps.{WorldSteps};

use crate::dialogs::take_talk;
use crate::notes::{Step, World, WorldError, WorldEvent, begin_step, is_watched, keep_step};
use crate::opening::open;
use crate::sending::push;
use crate::serving::{crash, serve};
use crate::taking::take_line;
use crate::{Change, cut, drop_server, is_ready, restart, submit, tamper, wait};

/// The client takes the front of what comes down, on a line or in a dialog.
pub fn take(world: &mut World, k: u32) -> Result<(), WorldError>
    ensures { WorldSteps world.old (events.Take k) world.new result }
{
    if is_ready(&world.channels, k) {
        return take_line(world, k);
    }
    take_talk(world, k)
}

/// By what it is.
fn meet(world: &mut World, event: WorldEvent) -> Result<(), WorldError>
    ensures { WorldSteps world.old event world.new result }
{
    // Long by its events alone: only the function of an event has the whole world, and its parts the fields that they
    // change.
    match event {
        WorldEvent::Submit { number, kind } => submit(world, number, kind),
        WorldEvent::Open(k) => open(world, k),
        WorldEvent::Push(k) => push(world, k),
        WorldEvent::Serve(k) => serve(world, k),
        WorldEvent::Take(k) => take(world, k),
        WorldEvent::Cut(k) => cut(world, k),
        WorldEvent::Drop(k) => drop_server(world, k),
        WorldEvent::Restart => restart(world),
        WorldEvent::Crash { connection, kept } => crash(world, connection, kept),
        WorldEvent::Wait(milliseconds) => {
            wait(world, milliseconds);
            Ok(())
        }
        WorldEvent::Forge {
            connection,
            up,
            bytes,
        } => tamper(world, connection, up, Change::Replaced(bytes)),
        WorldEvent::Flip {
            connection,
            up,
            at,
            mask,
        } => tamper(world, connection, up, Change::Flipped { at, mask }),
    }
}

/// A step is noted. (pub: settle notes its finish by it.)
pub fn note(world: &mut World, step: Step) -> Result<(), WorldError>
    ensures { MatchResult result (λ _. Noted world.old world.new) (λ e. IsWorldMemory e) }
{
    match keep_step(world, step) {
        Ok(()) => Ok(()),
        Err(_) => Err(WorldError::Memory),
    }
}

/// The same of a run that is watched: what it came to is kept.
fn step_watched(world: &mut World, event: WorldEvent) -> Result<(), WorldError>
    ensures { WorldSteps world.old event world.new result }
{
    let step = begin_step(world, &event);
    match meet(world, event) {
        Ok(()) => note(world, step),
        Err(why) => Err(why),
    }
}

/// An event of a world is the one of the definitions. Behind an error other than `Memory` the world is as before.
pub fn step(world: &mut World, event: WorldEvent) -> Result<(), WorldError>
    ensures { WorldSteps world.old event world.new result }
{
    if is_watched(world) {
        return step_watched(world, event);
    }
    meet(world, event)
}
