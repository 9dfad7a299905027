// A dialog ends: its channel is ready, or closes.
ghost use Rattle.std.specs.Prelude.{◌≡◌, MatchResult};
ghost use Rattle.client_events.specs.event_calls.Events.{act_of};
ghost use Rattle.spec_exchange.specs.Client.{unmade};
ghost use Rattle.world_steps.specs.Parts.{IsWorldMemory};
ghost use Rattle.world_steps.specs.dialogs.Turned.{TalkEnds, TalkEndsBy, IsTalkClosed, IsTalkLeft, TalkRefuses, RefusesBy, closes_one};

use crate::happen;
use crate::opening::{Act, Channel, ClientSide, Event, Played, World, WorldError, put_channel};
use client_ends::Line;
use std::alloc::Global;
use wire_bytes::Refusal;

/// The connection whose dialog makes a session, behind the end of this one.
fn made_without(making: Option<u32>, k: u32) -> Option<u32>
    ensures { result ≡ unmade k making }
{
    match making {
        Some(other) => { if other == k { None } else { Some(other) } }
        None => None,
    }
}

/// Whether a client is told that the connection failed.
fn fails(act: Act) -> bool
    ensures { result ≡ closes_one (act_of act) }
{
    match act {
        Act::Nothing => false,
        Act::Sends(_) => false,
        Act::Asks(_) => false,
        Act::CloseChannel => true,
        Act::CloseChannels => false,
        Act::AllSettled => false,
    }
}

/// The connection, closed at the client's end.
fn closed(mut rest: Channel) -> Channel
    ensures { IsTalkClosed rest result }
{
    rest.close_client();
    rest
}

/// The connection, with its line, or closed.
fn left(mut rest: Channel, line: Line, failed: bool) -> Channel
    ensures { IsTalkLeft rest line failed result }
{
    if failed {
        return closed(rest);
    }
    rest.client = ClientSide::Ready(line);
    rest
}

/// The channel is ready, where the client takes it so; else its connection counts as failed.
fn end_on(
    client: &mut Played,
    channels: &mut Vec<Channel>,
    alloc: Global,
    k: u32,
    event: Event,
    rest: Channel,
    line: Line,
) -> Result<(), WorldError>
    ensures { MatchResult result (λ _. TalkEnds client.old channels.old.items k event rest line client.new channels.new.items)
        (λ e. IsWorldMemory e) }
{
    match happen(client, alloc, event) {
        Ok(act) => {
            put_channel(channels, k, left(rest, line, fails(act)));
            Ok(())
        }
        Err(why) => Err(why),
    }
}

/// It leaves its dialog.
pub(crate) fn end_by(
    world: &mut World,
    k: u32,
    event: Event,
    rest: Channel,
    line: Line,
) -> Result<(), WorldError>
    ensures { MatchResult result (λ _. TalkEndsBy world.old k event rest line world.new) (λ e. IsWorldMemory e) }
{
    match end_on(
        &mut world.client,
        &mut world.channels,
        world.alloc,
        k,
        event,
        rest,
        line,
    ) {
        Ok(()) => {
            world.making = made_without(world.making, k);
            Ok(())
        }
        Err(why) => Err(why),
    }
}

fn refuse_on(
    client: &mut Played,
    channels: &mut Vec<Channel>,
    alloc: Global,
    k: u32,
    channel: u8,
    rest: Channel,
    why: Refusal,
) -> Result<(), WorldError>
    ensures { MatchResult result (λ _. TalkRefuses client.old channels.old.items k channel rest why client.new channels.new.items)
        (λ e. IsWorldMemory e) }
{
    match happen(client, alloc, Event::Refused { channel, why }) {
        Ok(_) => {
            put_channel(channels, k, closed(rest));
            Ok(())
        }
        Err(why) => Err(why),
    }
}

/// It is refused by the client, whose end closes.
pub(crate) fn refuse_by(
    world: &mut World,
    k: u32,
    channel: u8,
    rest: Channel,
    why: Refusal,
) -> Result<(), WorldError>
    ensures { MatchResult result (λ _. RefusesBy world.old k channel rest why world.new) (λ e. IsWorldMemory e) }
{
    match refuse_on(
        &mut world.client,
        &mut world.channels,
        world.alloc,
        k,
        channel,
        rest,
        why,
    ) {
        Ok(()) => {
            world.making = made_without(world.making, k);
            Ok(())
        }
        Err(why) => Err(why),
    }
}
