// The client gives up.
ghost use Rattle.std.specs.Prelude.{◌≡◌};
ghost use Rattle.client_steps.specs.whole_client.Shown.{ShowsClient};
ghost use Rattle.spec_exchange.specs.Client.{Client};
ghost use Rattle.world_steps.specs.Steps.{WorldFinishes};

use crate::happening::happen;
use crate::moments::later;
use client_values::Why;
use wire_bytes::Refusal;
use world_ends::{Event, Played, World, WorldError};

/// Whether a session is live.
pub fn is_live(client: &Played) -> bool
    ensures { (c : Client) → ShowsClient client.now c → result ≡ c.live }
{
    client.client().table.session.is_live()
}

/// No session can be had, since the dialog of a new one was refused so: what isn't settled is given up. Where a session is live nothing
/// happens.
pub fn finish(world: &mut World, refusal: Refusal) -> Result<(), WorldError>
    ensures { WorldFinishes world.old refusal world.new result }
{
    if is_live(&world.client) {
        return Ok(());
    }
    let why = Why::NoSession(refusal);
    match happen(&mut world.client, world.alloc, Event::Finish { why }) {
        Ok(_) => {
            later(world, 1);
            Ok(())
        }
        Err(why) => Err(why),
    }
}
