// Take on a line.
ghost use Rattle.std.specs.Prelude.{◌≡◌, true, MatchResult, slice_get};
ghost use Rattle.world_ends.specs.Tests.{readied_in};
ghost use Rattle.world_ends.specs.declared.events.WorldEvent.TheVariants as events;
ghost use Rattle.world_steps.specs.Parts.{IsWorldMemory};
ghost use Rattle.world_steps.specs.Steps.{WorldSteps};
ghost use Rattle.world_steps.specs.taking.Replies.{ClosesBy, TakeGoesOn, IsResponded, RepliesTo, TakesFront};

use crate::sending::{Act, Channel, Places, Played, World, WorldError};
use crate::taking::hearing::{Response, has_reply, hear_front};
use crate::taking::noting::respond;
use crate::taking::reading::reply_for;
use crate::{close_clients, closes_all, cut_end, later};
use std::alloc::Global;

/// Each connection of the client closes, or none.
fn close_told(making: &mut Option<u32>, channels: &mut Vec<Channel>, all: bool)
    ensures { ClosesBy all making.old channels.old.items making.new channels.new.items }
{
    if all {
        *making = None;
        close_clients(channels);
    }
}

fn reply_to(
    client: &mut Played,
    places: &mut Places,
    alloc: Global,
    salt: u64,
    k: u32,
    response: &Response,
) -> Result<Act, WorldError>
    ensures { MatchResult result (λ act. RepliesTo client.old places.old salt k response.now act client.new places.new)
        (λ e. IsWorldMemory e) }
{
    match reply_for(client, alloc, salt, response) {
        Ok(reply) => respond(client, places, alloc, k, response, reply),
        Err(why) => Err(why),
    }
}

/// It settles its operation, or the operation goes out again, or the session ends, and with it each connection of the client.
fn hear_response(world: &mut World, k: u32, response: &Response) -> Result<(), WorldError>
    ensures { MatchResult result (λ _. IsResponded world.old k response.now world.new) (λ e. IsWorldMemory e) }
{
    match reply_to(
        &mut world.client,
        &mut world.places,
        world.alloc,
        world.salt,
        k,
        response,
    ) {
        Ok(act) => {
            let all = closes_all(act);
            close_told(&mut world.making, &mut world.channels, all);
            Ok(())
        }
        Err(why) => Err(why),
    }
}

/// What the front came to. Where it was no response to a request that waits the channel is cut.
fn go_on(world: &mut World, k: u32, heard: Option<Response>) -> Result<(), WorldError>
    ensures { MatchResult result (λ _. TakeGoesOn world.old k heard world.new) (λ e. IsWorldMemory e) }
{
    match heard {
        Some(response) => hear_response(world, k, &response),
        None => cut_end(
            &mut world.client,
            &mut world.making,
            &mut world.channels,
            world.alloc,
            k,
        ),
    }
}

fn take_front(world: &mut World, k: u32) -> Result<(), WorldError>
    ensures { MatchResult result (λ _. TakesFront world.old k world.new) (λ e. IsWorldMemory e) }
{
    match hear_front(&mut world.channels, k) {
        Ok(heard) => go_on(world, k, heard),
        Err(why) => Err(why),
    }
}

/// The client takes the front of what comes down on a channel that is ready.
pub fn take_line(world: &mut World, k: u32) -> Result<(), WorldError>
    ensures { readied_in (slice_get world.old.channels.items k) ≡ true → WorldSteps world.old (events.Take k) world.new result }
{
    if !has_reply(&world.channels, k) {
        return Err(WorldError::NothingThere(k));
    }
    match take_front(world, k) {
        Ok(()) => {
            later(world, 1);
            Ok(())
        }
        Err(why) => Err(why),
    }
}
