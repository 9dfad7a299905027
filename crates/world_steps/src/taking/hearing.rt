// A line hears the front of what comes down.
ghost use Rattle.std.specs.Prelude.{◌≡◌, ◌<◌, ◌^◌, None, length, slice_get, MatchResult};
ghost use Rattle.spec_exchange.specs.Table.{is_filled};
ghost use Rattle.client_ends.specs.declared.ends.line.LineError.TheVariants as errors;
ghost use Rattle.world_steps.specs.Lists.{ChangedAt};
ghost use Rattle.world_steps.specs.Parts.{IsWorldMemory};
ghost use Rattle.world_steps.specs.taking.Replies.{HearsAt, HearsFrom, HearsOn, IsTakeAnswered, waits_in};

use crate::sending::{Channel, ClientSide, Down, WorldError};
use client_ends::line_calls::hear;
use client_ends::{Answer, Line, LineError};
use std::collections::VecDeque;
use wire_bytes::{Bytes, Header};

/// No frame is as long as this, which the ends of a connection ask of one.
const TOO_LONG: usize = 0x1000_0000_0000_0000;

/// A response to a request that waits: the operation's number, whether it answers the request to attach the operation's open in its place,
/// and the place of the message that it answers among those that the server took.
#[derive(Drop)]
pub(crate) struct Response {
    pub place: u64,
    pub number: u32,
    pub asking: bool,
    pub header: Header,
    pub message: Bytes,
}

fn waits(list: &VecDeque<Down>) -> bool
    ensures { result ≡ is_filled list.now.items }
{
    !list.is_empty()
}

/// Whether something is on its way to the client there.
pub(crate) fn has_reply(channels: &[Channel], k: u32) -> bool
    ensures { result ≡ waits_in (slice_get channels.now k) }
{
    match channels.get(k as usize) {
        Some(channel) => waits(&channel.down),
        None => false,
    }
}

/// Operations are counted in 32 bits.
fn response_of(answer: Answer, place: u64) -> Result<Option<Response>, WorldError>
    ensures { MatchResult result (λ o. IsTakeAnswered answer place o) (λ e. IsWorldMemory e) }
{
    let asking = answer.token % 2 == 1;
    match u32::try_from(answer.token / 2) {
        Ok(number) => Ok(Some(Response {
            place,
            number,
            asking,
            header: answer.header,
            message: answer.message,
        })),
        Err(_) => Err(WorldError::Memory),
    }
}

/// No request waits for it.
fn unheard(why: LineError) -> Result<Option<Response>, WorldError>
    ensures { MatchResult result (λ o. (why ≡ errors.BadReply) × (o ≡ None)) (λ e. IsWorldMemory e) }
{
    match why {
        LineError::BadReply => Ok(None),
        LineError::Memory => Err(WorldError::Memory),
        LineError::NoCredit(_) => Err(WorldError::Memory),
        LineError::Spent => Err(WorldError::Memory),
    }
}

fn hear_on(line: &mut Line, down: &Down) -> Result<Option<Response>, WorldError>
    requires { length down.now.bytes.items < 2 ^ 60 }
    ensures { MatchResult result (λ o. HearsOn line.old down.now line.new o) (λ e. IsWorldMemory e) }
{
    match hear(line, down.bytes.as_slice()) {
        Ok(answer) => response_of(answer, down.place),
        Err(why) => unheard(why),
    }
}

fn hear_from(side: &mut ClientSide, down: &Down) -> Result<Option<Response>, WorldError>
    requires { length down.now.bytes.items < 2 ^ 60 }
    ensures { MatchResult result (λ o. HearsFrom side.old down.now side.new o) (λ e. IsWorldMemory e) }
{
    match side {
        ClientSide::Closed => Err(WorldError::Memory),
        ClientSide::Talks(_) => Err(WorldError::Memory),
        ClientSide::Ready(line) => hear_on(line, down),
    }
}

fn hear_short(side: &mut ClientSide, down: &Down) -> Result<Option<Response>, WorldError>
    ensures { MatchResult result (λ o. HearsFrom side.old down.now side.new o) (λ e. IsWorldMemory e) }
{
    let short = down.bytes.len() < TOO_LONG;
    if short {
        hear_from(side, down)
    } else {
        Err(WorldError::Memory)
    }
}

fn hear_at(channel: &mut Channel) -> Result<Option<Response>, WorldError>
    ensures { MatchResult result (λ o. HearsAt o channel.old channel.new) (λ e. IsWorldMemory e) }
{
    match channel.down.pop_front() {
        Some(down) => hear_short(&mut channel.client, &down),
        None => Err(WorldError::Memory),
    }
}

/// The front leaves, and the line of its channel hears it: a response, or none, where the channel is to be cut.
pub(crate) fn hear_front(
    channels: &mut Vec<Channel>,
    k: u32,
) -> Result<Option<Response>, WorldError>
    ensures { MatchResult result (λ o. ChangedAt (HearsAt o) k channels.old.items channels.new.items) (λ e. IsWorldMemory e) }
{
    let at = k as usize;
    let within = at < channels.len();
    if within {
        hear_at(&mut channels[at])
    } else {
        Err(WorldError::Memory)
    }
}
