// The server crashes in the event of a front message.
ghost use Rattle.std.specs.Prelude.{◌≡◌, true, slice_get, MatchResult};
ghost use Rattle.world_ends.specs.Tests.{served_in};
ghost use Rattle.world_ends.specs.declared.events.WorldEvent.TheVariants as events;
ghost use Rattle.world_steps.specs.serving.Answered.{Absorbs};
ghost use Rattle.world_steps.specs.serving.Fronted.{fronted_in};
ghost use Rattle.world_steps.specs.Lists.{ChangedAt, ClosesServer};
ghost use Rattle.world_steps.specs.Parts.{IsWorldMemory};
ghost use Rattle.world_steps.specs.Steps.{WorldSteps};

use crate::serving::fronts::has_front;
use crate::serving::hearing::Reply;
use crate::serving::serving::take_front;
use crate::{Channel, World, WorldError, close_server, is_served, restart};

/// The server's end closes, and what was to be said is lost.
fn shut(channels: &mut Vec<Channel>, k: u32, _reply: Reply)
    ensures { ChangedAt ClosesServer k channels.old.items channels.new.items }
{
    close_server(channels, k);
}

/// The server takes the front and says nothing.
fn absorb(world: &mut World, k: u32) -> Result<(), WorldError>
    ensures { MatchResult result (λ _. Absorbs world.old k world.new) (λ e. IsWorldMemory e) }
{
    match take_front(world, k) {
        Ok(reply) => {
            shut(&mut world.channels, k, reply);
            Ok(())
        }
        Err(why) => Err(why),
    }
}

fn crash_behind(world: &mut World, k: u32) -> Result<(), WorldError>
    ensures { served_in (slice_get world.old.channels.items k) ≡ true → fronted_in (slice_get world.old.channels.items k) ≡ true
        → WorldSteps world.old (events.Crash k true) world.new result }
{
    match absorb(world, k) {
        Ok(()) => restart(world),
        Err(why) => Err(why),
    }
}

/// The server crashes in the event of the front message, whose records stay where `kept` says so, and starts anew. Its replies are made
/// and go nowhere.
pub fn crash(world: &mut World, k: u32, kept: bool) -> Result<(), WorldError>
    ensures { WorldSteps world.old (events.Crash k kept) world.new result }
{
    if !is_served(&world.channels, k) {
        return Err(WorldError::NoChannel(k));
    }
    if !has_front(&world.channels, k) {
        return Err(WorldError::NothingThere(k));
    }
    if kept {
        return crash_behind(world, k);
    }
    restart(world)
}
