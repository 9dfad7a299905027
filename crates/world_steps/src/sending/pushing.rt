// A push.
ghost use Rattle.std.specs.Prelude.{◌≡◌, true, false, MatchResult};
ghost use Rattle.client_events.specs.event_calls.Events.{act_of};
ghost use Rattle.world_ends.specs.declared.events.WorldEvent.TheVariants as events;
ghost use Rattle.world_steps.specs.sending.Sending.{SendingGoes, GoesBy, Pushes};
ghost use Rattle.world_steps.specs.Parts.{IsWorldMemory};
ghost use Rattle.world_steps.specs.Steps.{WorldSteps};

use crate::sending::asking::request_for;
use crate::sending::choosing::choose;
use crate::sending::saying::say_up;
use crate::{Act, Channel, Played, World, WorldError, is_ready, later};
use std::alloc::Global;

fn send_up(
    client: &Played,
    channels: &mut Vec<Channel>,
    alloc: Global,
    salt: u64,
    k: u32,
    number: u32,
    asking: bool,
) -> Result<(), WorldError>
    ensures { MatchResult result (λ _. SendingGoes client.now salt number asking k channels.old.items
        channels.new.items) (λ e. IsWorldMemory e) }
{
    match request_for(client, alloc, salt, number, asking) {
        Ok(request) => say_up(channels, k, &request),
        Err(why) => Err(why),
    }
}

/// Operations are counted in 32 bits.
fn send_number(
    client: &Played,
    channels: &mut Vec<Channel>,
    alloc: Global,
    salt: u64,
    k: u32,
    number: usize,
    asking: bool,
) -> Result<(), WorldError>
    ensures { MatchResult result (λ _. SendingGoes client.now salt number asking k channels.old.items
        channels.new.items) (λ e. IsWorldMemory e) }
{
    match u32::try_from(number) {
        Ok(number) => send_up(client, channels, alloc, salt, k, number, asking),
        Err(_) => Err(WorldError::Memory),
    }
}

fn send_itself(
    client: &Played,
    channels: &mut Vec<Channel>,
    alloc: Global,
    salt: u64,
    k: u32,
    number: usize,
) -> Result<(), WorldError>
    ensures { MatchResult result (λ _. SendingGoes client.now salt number false k channels.old.items channels.new.items)
        (λ e. IsWorldMemory e) }
{
    send_number(client, channels, alloc, salt, k, number, false)
}

/// The request to attach its open goes out in its place.
fn ask_instead(
    client: &Played,
    channels: &mut Vec<Channel>,
    alloc: Global,
    salt: u64,
    k: u32,
    number: usize,
) -> Result<(), WorldError>
    ensures { MatchResult result (λ _. SendingGoes client.now salt number true k channels.old.items channels.new.items)
        (λ e. IsWorldMemory e) }
{
    send_number(client, channels, alloc, salt, k, number, true)
}

/// What the client is to do.
fn go_out(
    client: &Played,
    channels: &mut Vec<Channel>,
    alloc: Global,
    salt: u64,
    k: u32,
    act: Act,
) -> Result<(), WorldError>
    ensures { MatchResult result (λ _. GoesBy (act_of act) client.now salt k channels.old.items channels.new.items) (λ e. IsWorldMemory e) }
{
    match act {
        Act::Nothing => Ok(()),
        Act::Sends(number) => send_itself(client, channels, alloc, salt, k, number),
        Act::Asks(number) => ask_instead(client, channels, alloc, salt, k, number),
        Act::CloseChannel => Ok(()),
        Act::CloseChannels => Ok(()),
        Act::AllSettled => Ok(()),
    }
}

/// The client chooses, and what it chose goes up.
fn push_lowest(
    client: &mut Played,
    channels: &mut Vec<Channel>,
    alloc: Global,
    salt: u64,
    k: u32,
) -> Result<(), WorldError>
    ensures { MatchResult result (λ _. Pushes client.old salt k channels.old.items client.new channels.new.items) (λ e. IsWorldMemory e) }
{
    match choose(client, channels.as_slice(), alloc, k) {
        Ok(act) => go_out(client, channels, alloc, salt, k, act),
        Err(why) => Err(why),
    }
}

/// The lowest operation goes out that may and is paid for, on a channel that is ready. A line of which all nonces are given counts as one
/// that finds no memory.
pub fn push(world: &mut World, k: u32) -> Result<(), WorldError>
    ensures { WorldSteps world.old (events.Push k) world.new result }
{
    if !is_ready(&world.channels, k) {
        return Err(WorldError::NoChannel(k));
    }
    match push_lowest(
        &mut world.client,
        &mut world.channels,
        world.alloc,
        world.salt,
        k,
    ) {
        Ok(()) => {
            later(world, 1);
            Ok(())
        }
        Err(why) => Err(why),
    }
}
