// An event that the world doesn't meet is none.
ghost use Rattle.std.specs.Prelude.{◌≡◌};
ghost use Rattle.world_steps.specs.events.Coming.{EventComesTo, unmet_as, went_as};

use crate::events::stepping::step;
use crate::notes::{World, WorldError, WorldEvent};

/// Nothing happens where the world didn't meet it.
fn unmet(why: WorldError) -> Result<(), WorldError>
    ensures { result ≡ unmet_as why }
{
    match why {
        WorldError::Memory => Err(WorldError::Memory),
        WorldError::NoChannel(_) => Ok(()),
        WorldError::NothingThere(_) => Ok(()),
        WorldError::InUse(_) => Ok(()),
    }
}

/// An event; one that the world doesn't meet is none. Its only error is `Memory`.
pub fn go(world: &mut World, event: WorldEvent) -> Result<(), WorldError>
    ensures { EventComesTo (went_as event) world.old world.new result }
{
    match step(world, event) {
        Ok(()) => Ok(()),
        Err(why) => unmet(why),
    }
}
