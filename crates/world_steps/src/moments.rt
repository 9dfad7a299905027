// Time goes on.
ghost use Rattle.std.specs.Prelude.{◌≡◌, ◌+◌, Ok};
ghost use Rattle.spec_exchange.specs.State.{no_later};
ghost use Rattle.world_ends.specs.declared.events.WorldEvent.TheVariants as events;
ghost use Rattle.world_steps.specs.Steps.{WorldSteps};

use world_ends::World;

/// So many moments pass; at the last one it stands still.
pub fn later(world: &mut World, moments: u64)
    ensures moment { world.new.moment ≡ no_later (world.old.moment + moments) }
    ensures rest { world.new ≡ record world.old { moment = world.new.moment } }
{
    world.moment = world.moment.saturating_add(moments);
}

/// Milliseconds pass, of 10,000 moments each.
pub fn wait(world: &mut World, milliseconds: u64)
    ensures { WorldSteps world.old (events.Wait milliseconds) world.new (Ok tt) }
{
    later(world, milliseconds.saturating_mul(10_000));
}
