// A request goes up on the line of a channel.
ghost use Rattle.std.specs.Prelude.{◌≡◌, ◌∷◌, [], ◌++◌, ◌<◌, ◌^◌, length, MatchResult};
ghost use Rattle.client_ends.specs.line_calls.Sending.{CanSend};
ghost use Rattle.world_steps.specs.sending.Sending.{SendingSaysOn, SendsFrom, SendsUp};
ghost use Rattle.world_steps.specs.Lists.{ChangedAt};
ghost use Rattle.world_steps.specs.Parts.{IsWorldMemory};

use crate::{Channel, ClientSide, Up, WorldError};
use client_ends::{Line, send};
use std::collections::VecDeque;
use wire_bytes::{Bytes, Request};

/// No frame is as long as this, which the ends of a connection ask of one.
const TOO_LONG: usize = 0x1000_0000_0000_0000;

fn up_of(token: u64, frame: Bytes) -> Result<Up, WorldError>
    ensures { MatchResult result (λ u. (u.token ≡ token) × (u.bytes.items ≡ frame) × (length frame < 2 ^ 60)) (λ e. IsWorldMemory e) }
{
    let short = frame.len() < TOO_LONG;
    if short {
        Ok(Up {
            token,
            bytes: frame.into_vec(),
        })
    } else {
        Err(WorldError::Memory)
    }
}

/// Where it isn't paid for, or no nonce is left, that counts as memory that ran out.
fn send_on(line: &mut Line, request: &Request) -> Result<Up, WorldError>
    requires { CanSend request.now }
    ensures { MatchResult result (λ u. SendsUp request.now line.old line.new u) (λ e. IsWorldMemory e) }
{
    match send(line, request) {
        Ok(frame) => up_of(request.token, frame),
        Err(_) => Err(WorldError::Memory),
    }
}

fn send_from(side: &mut ClientSide, request: &Request) -> Result<Up, WorldError>
    requires { CanSend request.now }
    ensures { MatchResult result (λ u. SendsFrom request.now side.old side.new u) (λ e. IsWorldMemory e) }
{
    match side {
        ClientSide::Closed => Err(WorldError::Memory),
        ClientSide::Talks(_) => Err(WorldError::Memory),
        ClientSide::Ready(line) => send_on(line, request),
    }
}

fn put_up(list: &mut VecDeque<Up>, up: Up) -> Result<(), WorldError>
    ensures { MatchResult result (λ _. list.new.items ≡ list.old.items ++ up ∷ []) (λ e. IsWorldMemory e) }
{
    let pushed = list.push_back(up).is_ok();
    if pushed {
        Ok(())
    } else {
        Err(WorldError::Memory)
    }
}

fn say(channel: &mut Channel, request: &Request) -> Result<(), WorldError>
    requires { CanSend request.now }
    ensures { MatchResult result (λ _. SendingSaysOn request.now channel.old channel.new) (λ e. IsWorldMemory e) }
{
    match send_from(&mut channel.client, request) {
        Ok(up) => put_up(&mut channel.up, up),
        Err(why) => Err(why),
    }
}

/// It is sent on a channel that is ready, and waits behind what is on its way up there.
pub(crate) fn say_up(
    channels: &mut Vec<Channel>,
    k: u32,
    request: &Request,
) -> Result<(), WorldError>
    requires { CanSend request.now }
    ensures { MatchResult result (λ _. ChangedAt (SendingSaysOn request.now) k channels.old.items channels.new.items)
        (λ e. IsWorldMemory e) }
{
    let at = k as usize;
    let within = at < channels.len();
    if within {
        say(&mut channels[at], request)
    } else {
        Err(WorldError::Memory)
    }
}
