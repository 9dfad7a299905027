// The client's dialog hears.
ghost use Rattle.std.specs.Prelude.{◌≡◌, ◌<◌, true, false, is_some, MatchResult, None, slice_get};
ghost use Rattle.world_ends.specs.Tests.{readied_in};
ghost use Rattle.world_ends.specs.declared.events.WorldEvent.TheVariants as events;
ghost use Rattle.world_steps.specs.Parts.{IsWorldMemory};
ghost use Rattle.world_steps.specs.Steps.{WorldSteps};
ghost use Rattle.world_steps.specs.dialogs.Talking.{taking_refusal, channel_number};
ghost use Rattle.world_steps.specs.dialogs.Turned.{TalkEndsBy, TakesTurn, TalksAt, TurnsAs};

use crate::dialogs::ending::{end_by, refuse_by};
use crate::dialogs::fronting::{Talk, take_out};
use crate::dialogs::going::say_on;
use crate::dialogs::hearing::{Turn, number_for, turn_of};
use crate::dialogs::joining::accept_by;
use crate::dialogs::refusing::refusal;
use crate::later;
use crate::opening::{Channel, Event, World, WorldError};
use client_ends::{Heard, Line};

/// A session's first channel is ready. One that was bound has a number, and isn't ready so.
fn ready_by(
    world: &mut World,
    k: u32,
    number: u16,
    event: Event,
    rest: Channel,
    line: Line,
) -> Result<(), WorldError>
    ensures { MatchResult result (λ _. (number ≡ 0) × TalkEndsBy world.old k event rest line world.new) (λ e. IsWorldMemory e) }
{
    let none = number == 0;
    if none {
        end_by(world, k, event, rest, line)
    } else {
        Err(WorldError::Memory)
    }
}

/// What it came to happens.
fn turn_by(
    world: &mut World,
    k: u32,
    channel: u8,
    number: u16,
    turn: Turn,
) -> Result<(), WorldError>
    ensures { MatchResult result (λ _. TurnsAs turn.heard world.old k channel number turn.dialog turn.rest world.new)
        (λ e. IsWorldMemory e) }
{
    let Turn {
        dialog,
        heard,
        rest,
    } = turn;
    // Each arm ends the event by itself, because facts of a call in an arm are lost where arms join.
    match heard {
        Heard::Say(frame) => say_on(&mut world.channels, k, rest, dialog, frame),
        Heard::Accepted {
            keys,
            tree_connect,
            ..
        } => accept_by(world, k, channel, number, dialog, rest, keys, tree_connect),
        Heard::Ready {
            line,
            session,
            tree,
        } => ready_by(
            world,
            k,
            number,
            Event::Ready {
                channel,
                session,
                tree,
            },
            rest,
            line,
        ),
        Heard::Refused(why) => refuse_by(world, k, channel, rest, why),
    }
}

fn hear_by(
    world: &mut World,
    k: u32,
    channel: u8,
    number: u16,
    talk: Talk,
) -> Result<(), WorldError>
    ensures { (is_some talk.dialog.bound ≡ true → 0 < world.old.numbers)
        → MatchResult result (λ _. TakesTurn world.old k channel number talk world.new) (λ e. IsWorldMemory e) }
{
    match turn_of(talk, number) {
        Ok(turn) => turn_by(world, k, channel, number, turn),
        Err(why) => Err(why),
    }
}

/// The number of a bound channel is the next one, and connections are counted in 8 bits.
fn talk_by(world: &mut World, k: u32, channel: u8, talk: Talk) -> Result<(), WorldError>
    ensures { MatchResult result
        (λ _. TakesTurn world.old k channel (channel_number (is_some talk.dialog.bound) world.old.numbers) talk world.new) (λ e. IsWorldMemory e) }
{
    match number_for(&talk.dialog.bound, world.numbers) {
        Ok(number) => hear_by(world, k, channel, number, talk),
        Err(why) => Err(why),
    }
}

fn talk_at(world: &mut World, k: u32, talk: Talk) -> Result<(), WorldError>
    ensures { MatchResult result
        (λ _. TakesTurn world.old k k (channel_number (is_some talk.dialog.bound) world.old.numbers) talk world.new) (λ e. IsWorldMemory e) }
{
    match u8::try_from(k) {
        Ok(channel) => talk_by(world, k, channel, talk),
        Err(_) => Err(WorldError::Memory),
    }
}

/// Its connection is taken out.
fn take_there(world: &mut World, k: u32) -> Result<(), WorldError>
    ensures { MatchResult result (λ _. TalksAt world.old k world.new) (λ e. IsWorldMemory e) }
{
    match take_out(&mut world.channels, world.alloc, k) {
        Ok(talk) => talk_at(world, k, talk),
        Err(why) => Err(why),
    }
}

fn take_open(world: &mut World, k: u32) -> Result<(), WorldError>
    ensures { taking_refusal (slice_get world.old.channels.items k) k ≡ None → WorldSteps world.old (events.Take k) world.new result }
{
    match take_there(world, k) {
        Ok(()) => {
            later(world, 1);
            Ok(())
        }
        Err(why) => Err(why),
    }
}

/// The client's dialog hears the front of what comes down to a connection that isn't ready. Of one that is, it counts as memory that
/// ran out.
pub fn take_talk(world: &mut World, k: u32) -> Result<(), WorldError>
    ensures { readied_in (slice_get world.old.channels.items k) ≡ false → WorldSteps world.old (events.Take k) world.new result }
{
    match refusal(&world.channels, k) {
        Ok(()) => take_open(world, k),
        Err(why) => Err(why),
    }
}
