// The client closes its end of a connection.
ghost use Rattle.std.specs.Prelude.{◌≡◌, IfSome, MatchResult, slice_get};
ghost use Rattle.client_events.specs.event_calls.Events.{act_of};
ghost use Rattle.spec_exchange.specs.Client.{unmade};
ghost use Rattle.world_ends.specs.Tests.{opened_in, readied_in};
ghost use Rattle.world_ends.specs.declared.events.WorldEvent.TheVariants as events;
ghost use Rattle.world_steps.specs.Lists.{ChangedAll, ChangedAt, ClosesClient};
ghost use Rattle.world_steps.specs.Parts.{ClosedBy, Cuts, CutsLine, IsWorldMemory, all_close};
ghost use Rattle.world_steps.specs.Steps.{WorldSteps};

use crate::happening::happen;
use crate::moments::later;
use std::alloc::Global;
use world_ends::{Act, Channel, Event, Played, World, WorldError};

/// Whether the client's end of a connection is open.
pub fn is_open(channels: &[Channel], k: u32) -> bool
    ensures { result ≡ opened_in (slice_get channels.now k) }
{
    match channels.get(k as usize) {
        Some(channel) => channel.is_client_open(),
        None => false,
    }
}

/// Whether its channel is ready.
pub fn is_ready(channels: &[Channel], k: u32) -> bool
    ensures { result ≡ readied_in (slice_get channels.now k) }
{
    match channels.get(k as usize) {
        Some(channel) => channel.is_ready(),
        None => false,
    }
}

/// It closes.
pub fn close_client(channels: &mut Vec<Channel>, k: u32)
    ensures { ChangedAt ClosesClient k channels.old.items channels.new.items }
{
    let at = k as usize;
    let within = at < channels.len();
    if within {
        channels[at].close_client();
    }
}

/// Each one closes.
pub fn close_clients(channels: &mut Vec<Channel>)
    ensures { ChangedAll ClosesClient channels.old.items channels.new.items }
{
    for channel in channels.iter_mut() {
        channel.close_client();
    }
}

/// The connection whose dialog makes a session, behind the end of this one.
fn made_without(making: Option<u32>, k: u32) -> Option<u32>
    ensures { result ≡ unmade k making }
{
    match making {
        Some(other) => { if other == k { None } else { Some(other) } }
        None => None,
    }
}

/// Whether a client is told to close each connection.
pub fn closes_all(act: Act) -> bool
    ensures { result ≡ all_close (act_of act) }
{
    match act {
        Act::Nothing => false,
        Act::Sends(_) => false,
        Act::Asks(_) => false,
        Act::CloseChannel => false,
        Act::CloseChannels => true,
        Act::AllSettled => false,
    }
}

/// A channel leaves its dialog, and its end closes.
pub fn leave(making: &mut Option<u32>, channels: &mut Vec<Channel>, k: u32)
    ensures making { making.new ≡ unmade k making.old }
    ensures channels { ChangedAt ClosesClient k channels.old.items channels.new.items }
{
    *making = made_without(*making, k);
    close_client(channels, k);
}

/// This end closes, or each one, and then nothing is in the making.
pub fn close_by(making: &mut Option<u32>, channels: &mut Vec<Channel>, k: u32, all: bool)
    ensures { ClosedBy making.old channels.old.items k all making.new channels.new.items }
{
    if all {
        *making = None;
        close_clients(channels);
    } else {
        close_client(channels, k);
    }
}

/// A ready channel is cut: the client hears of it.
fn cut_line(
    client: &mut Played,
    making: &mut Option<u32>,
    channels: &mut Vec<Channel>,
    alloc: Global,
    k: u32,
    channel: u8,
) -> Result<(), WorldError>
    ensures { MatchResult result
        (λ _. CutsLine client.old making.old channels.old.items k channel client.new making.new channels.new.items) (λ e. IsWorldMemory e) }
{
    match happen(client, alloc, Event::Cut { channel }) {
        Ok(act) => {
            let all = closes_all(act);
            close_by(making, channels, k, all);
            Ok(())
        }
        Err(why) => Err(why),
    }
}

/// Connections that the client has are counted in 8 bits.
fn number_of(k: u32) -> Option<u8>
    ensures { IfSome result (λ n. n ≡ k) }
{
    if k < 256 { Some(k as u8) } else { None }
}

fn cut_ready(
    client: &mut Played,
    making: &mut Option<u32>,
    channels: &mut Vec<Channel>,
    alloc: Global,
    k: u32,
) -> Result<(), WorldError>
    ensures { MatchResult result
        (λ _. CutsLine client.old making.old channels.old.items k k client.new making.new channels.new.items) (λ e. IsWorldMemory e) }
{
    match number_of(k) {
        Some(channel) => cut_line(client, making, channels, alloc, k, channel),
        None => Err(WorldError::Memory),
    }
}

/// The client's end of a connection closes, in its dialog or behind it.
pub fn cut_end(
    client: &mut Played,
    making: &mut Option<u32>,
    channels: &mut Vec<Channel>,
    alloc: Global,
    k: u32,
) -> Result<(), WorldError>
    ensures { MatchResult result
        (λ _. Cuts client.old making.old channels.old.items k client.new making.new channels.new.items) (λ e. IsWorldMemory e) }
{
    if is_ready(channels.as_slice(), k) {
        return cut_ready(client, making, channels, alloc, k);
    }
    leave(making, channels, k);
    Ok(())
}

/// The client closes its end of a connection.
pub fn cut(world: &mut World, k: u32) -> Result<(), WorldError>
    ensures { WorldSteps world.old (events.Cut k) world.new result }
{
    if !is_open(&world.channels, k) {
        return Err(WorldError::NoChannel(k));
    }
    match cut_end(
        &mut world.client,
        &mut world.making,
        &mut world.channels,
        world.alloc,
        k,
    ) {
        Ok(()) => {
            later(world, 1);
            Ok(())
        }
        Err(why) => Err(why),
    }
}
