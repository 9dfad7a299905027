// What happens to the client.
ghost use Rattle.std.specs.Prelude.{◌≡◌, MatchResult, OnOk};
ghost use Rattle.client_steps.specs.whole_client.Shown.{ShowsClient};
ghost use Rattle.client_events.specs.event_calls.Events.{ClientEventTells};
ghost use Rattle.client_events.specs.played_client.Holding.{PlayedSteps};
ghost use Rattle.spec_exchange.specs.Client.{Client};
ghost use Rattle.world_steps.specs.Parts.{IsWorldMemory};

use std::alloc::Global;
use world_ends::{Act, Event, Played, WorldError};

/// An event happens to the client. One that can't come counts as memory that ran out.
pub fn happen(client: &mut Played, alloc: Global, event: Event) -> Result<Act, WorldError>
    ensures shown { OnOk result (PlayedSteps client.old client.new event) }
    ensures told { MatchResult result (λ act. ClientEventTells client.old event act) (λ e. IsWorldMemory e) }
{
    match client.step(event, alloc) {
        Ok(act) => Ok(act),
        Err(_) => Err(WorldError::Memory),
    }
}

/// How many operations the client took.
pub fn taken_by(client: &Played) -> usize
    ensures { (c : Client) → ShowsClient client.now c → c.taken ≡ result }
{
    client.client().taken()
}
