// A connection is opened.
ghost use Rattle.std.specs.Prelude.{◌≡◌, ◌+◌, if◌then◌else◌, None, Some, slice_get};
ghost use Rattle.world_ends.specs.declared.events.WorldEvent.TheVariants as events;
ghost use Rattle.world_steps.specs.opening.Opening.{OpeningMakes, opening_refusal};
ghost use Rattle.world_steps.specs.Steps.{WorldSteps};

use crate::opening::beginning::{Begun, ends_of};
use crate::opening::entering::enter;
use crate::opening::refusing::refusal;
use crate::{World, WorldError, later};

/// An Open draws the client's salt, challenge and key, and the server's salt.
const DRAWS: u64 = 4;

/// The connection whose dialog makes a session: a binding makes none.
fn made_with(making: Option<u32>, bound: bool, k: u32) -> Option<u32>
    ensures { result ≡ (if bound then making else Some k) }
{
    if bound { making } else { Some(k) }
}

/// Both ends stand on their connection.
fn open_by(world: &mut World, k: u32, draws: u64, begun: Begun) -> Result<(), WorldError>
    ensures { opening_refusal (slice_get world.old.channels.items k) world.old.making k ≡ None → draws ≡ world.old.draws + 4
        → OpeningMakes world.old k begun → WorldSteps world.old (events.Open k) world.new result }
{
    let bound = begun.dialog.bound.is_some();
    match enter(
        &mut world.book,
        &mut world.channels,
        world.alloc,
        world.moment,
        k,
        begun,
    ) {
        Ok(()) => {
            world.making = made_with(world.making, bound, k);
            world.draws = draws;
            later(world, 1);
            Ok(())
        }
        Err(why) => Err(why),
    }
}

fn open_drawn(world: &mut World, k: u32, draws: u64) -> Result<(), WorldError>
    requires { draws ≡ world.old.draws + 4 }
    ensures { opening_refusal (slice_get world.old.channels.items k) world.old.making k ≡ None
        → WorldSteps world.old (events.Open k) world.new result }
{
    match ends_of(world, k) {
        Ok(begun) => open_by(world, k, draws, begun),
        Err(why) => Err(why),
    }
}

fn open_free(world: &mut World, k: u32) -> Result<(), WorldError>
    ensures { opening_refusal (slice_get world.old.channels.items k) world.old.making k ≡ None
        → WorldSteps world.old (events.Open k) world.new result }
{
    match world.draws.checked_add(DRAWS) {
        Some(draws) => open_drawn(world, k, draws),
        None => Err(WorldError::Memory),
    }
}

/// A connection is opened, and its dialog begins: a binding where a session is live. A server that takes no more has no end, and
/// nothing goes up. Four draws are taken.
pub fn open(world: &mut World, k: u32) -> Result<(), WorldError>
    ensures { WorldSteps world.old (events.Open k) world.new result }
{
    match refusal(&world.channels, world.making, k) {
        Ok(()) => open_free(world, k),
        Err(why) => Err(why),
    }
}
