// Why a connection's dialog hears nothing.
ghost use Rattle.std.specs.Prelude.{◌≡◌, slice_get};
ghost use Rattle.spec_exchange.specs.Table.{is_filled};
ghost use Rattle.world_steps.specs.opening.Opening.{IsOpeningDue};
ghost use Rattle.world_steps.specs.dialogs.Talking.{taking_refusal_on, taking_refusal};

use crate::opening::{Channel, Down, WorldError};
use std::collections::VecDeque;

/// Whether something comes down.
fn comes_down(down: &VecDeque<Down>) -> bool
    ensures { result ≡ is_filled down.now.items }
{
    !down.is_empty()
}

fn unless_there(channel: &Channel, k: u32) -> Result<(), WorldError>
    ensures { IsOpeningDue (taking_refusal_on channel.now k) result }
{
    if !channel.is_client_open() {
        return Err(WorldError::NoChannel(k));
    }
    if !comes_down(&channel.down) {
        return Err(WorldError::NothingThere(k));
    }
    Ok(())
}

/// The client's end is open, and something comes down to it.
pub(crate) fn refusal(channels: &[Channel], k: u32) -> Result<(), WorldError>
    ensures { IsOpeningDue (taking_refusal (slice_get channels.now k) k) result }
{
    match channels.get(k as usize) {
        Some(channel) => unless_there(channel, k),
        None => Err(WorldError::NoChannel(k)),
    }
}
