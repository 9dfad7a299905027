// Why a connection can't be opened.
ghost use Rattle.std.specs.Prelude.{◌≡◌, ◌||◌, if◌then◌else◌, is_some, slice_get, Some};
ghost use Rattle.spec_world.specs.Notes.{InUse as Used, making_error};
ghost use Rattle.world_ends.specs.Tests.{is_open};
ghost use Rattle.world_steps.specs.opening.Opening.{IsOpeningDue, opening_refusal};

use crate::{Channel, WorldError};

/// Whether an end of a connection is open.
fn is_in_use(channel: &Channel) -> bool
    ensures { result ≡ (is_open channel.now.client || is_some channel.now.server) }
{
    if channel.is_client_open() {
        return true;
    }
    channel.is_server_open()
}

/// No session is in the making.
fn unless_making(making: Option<u32>) -> Result<(), WorldError>
    ensures { IsOpeningDue (making_error making) result }
{
    match making {
        Some(other) => Err(WorldError::InUse(other)),
        None => Ok(()),
    }
}

fn unless_in_use(channel: &Channel, making: Option<u32>, k: u32) -> Result<(), WorldError>
    ensures { IsOpeningDue (if is_open channel.now.client || is_some channel.now.server then Some (Used k) else
        making_error making) result }
{
    if is_in_use(channel) {
        return Err(WorldError::InUse(k));
    }
    unless_making(making)
}

/// There is a connection of this number, no end of it is open, and no session is in the making.
pub(crate) fn refusal(channels: &[Channel], making: Option<u32>, k: u32) -> Result<(), WorldError>
    ensures { IsOpeningDue (opening_refusal (slice_get channels.now k) making k) result }
{
    match channels.get(k as usize) {
        Some(channel) => unless_in_use(channel, making, k),
        None => Err(WorldError::NoChannel(k)),
    }
}
