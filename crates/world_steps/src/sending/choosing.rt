// What the client chooses to send on a channel.
ghost use Rattle.std.specs.Prelude.{◌≡◌, MatchResult, slice_get};
ghost use Rattle.world_steps.specs.sending.Sending.{Chooses, ChoosesOn, credits_in, held_by};
ghost use Rattle.world_steps.specs.Parts.{IsWorldMemory};

use crate::{Act, Channel, ClientSide, Event, Played, WorldError, happen};
use std::alloc::Global;

fn credits_of(side: &ClientSide) -> Option<u32>
    ensures { result ≡ held_by side.now }
{
    match side {
        ClientSide::Closed => None,
        ClientSide::Talks(_) => None,
        ClientSide::Ready(line) => Some(line.credits()),
    }
}

/// The credits of a channel that is ready.
fn credits_on(channels: &[Channel], k: u32) -> Option<u32>
    ensures { result ≡ credits_in (slice_get channels.now k) }
{
    match channels.get(k as usize) {
        Some(channel) => credits_of(&channel.client),
        None => None,
    }
}

/// It has so many. Connections that the client has are counted in 8 bits.
fn choose_with(client: &mut Played, alloc: Global, k: u32, credits: u32) -> Result<Act, WorldError>
    ensures { MatchResult result (λ act. Chooses client.old k credits act client.new) (λ e. IsWorldMemory e) }
{
    match u8::try_from(k) {
        Ok(channel) => happen(client, alloc, Event::Push { channel, credits }),
        Err(_) => Err(WorldError::Memory),
    }
}

/// The client chooses, by the credits of the channel.
pub(crate) fn choose(
    client: &mut Played,
    channels: &[Channel],
    alloc: Global,
    k: u32,
) -> Result<Act, WorldError>
    ensures { MatchResult result (λ act. ChoosesOn client.old channels.now k act client.new) (λ e. IsWorldMemory e) }
{
    match credits_on(channels, k) {
        Some(credits) => choose_with(client, alloc, k, credits),
        None => Err(WorldError::Memory),
    }
}
