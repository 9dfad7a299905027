// One match over the events of a client.
ghost use Rattle.std.specs.Prelude.{IfOk, OnErr, OnOk};
ghost use Rattle.client_steps.specs.whole_client.Shown.{FitsClient};
ghost use Rattle.client_events.specs.event_calls.Events.{KeepsShown, ClientEventLacks, ShowsStep, StaysReady, ClientEventTells};

use crate::event_calls::calls::{cut, finish, push, ready, refused, submit};
use crate::event_calls::responses::hear;
use client_steps::Client;
use client_values::{OpKind, Why};
use std::alloc::{AllocError, Global};
use wire_bytes::Refusal;
use wire_commands::Body;

/// What happens to a client. A channel is given by its number.
#[derive(Drop)]
pub enum Event {
    /// An operation, under its number. One that may not be taken changes nothing.
    Submit {
        number: u32,
        kind: OpKind,
    },
    /// A channel may send, and holds so many credits.
    Push {
        channel: u8,
        credits: u32,
    },
    /// The response to an operation, or to the request to attach its open in its place (`asking`).
    Hear {
        channel: u8,
        number: u32,
        asking: bool,
        status: u32,
        body: Body,
    },
    /// A channel is cut.
    Cut {
        channel: u8,
    },
    /// The dialog of a channel ended well, in a session with these ids.
    Ready {
        channel: u8,
        session: u64,
        tree: u32,
    },
    /// The dialog of a channel was refused.
    Refused {
        channel: u8,
        why: Refusal,
    },
    /// No session can be had.
    Finish {
        why: Why,
    },
}

/// What a client is to do.
#[derive(Clone, Copy, Debug, PartialEq, Eq)]
pub enum Act {
    Nothing,
    /// To send an operation itself, by its number.
    Sends(usize),
    /// To send the request to attach its open, in its place.
    Asks(usize),
    /// To close the connection whose dialog failed.
    CloseChannel,
    /// To close each connection.
    CloseChannels,
    /// Nothing is left to be done.
    AllSettled,
}

/// What a client does at an event: the model's step. Memory is wanting only at a submit that may be taken, at the success of a listing
/// that is awaited, and at a refused dialog; then nothing happened.
pub fn step(client: &mut Client, event: Event, alloc: Global) -> Result<Act, AllocError>
    requires fits { FitsClient client.old }
    ensures fits { FitsClient client.new }
    ensures shown { OnOk result (ShowsStep client.old client.new event) }
    ensures told { IfOk result (ClientEventTells client.old event) }
    ensures kept { OnErr result (KeepsShown client.old client.new) }
    ensures lacks { OnErr result (ClientEventLacks client.old event) }
    ensures stays { StaysReady client.old client.new event }
{
    match event {
        Event::Submit { number, kind } => submit(client, number, kind, alloc),
        Event::Push { channel, credits } => Ok(push(client, channel, credits)),
        Event::Hear {
            channel,
            number,
            asking,
            status,
            body,
        } => hear(client, channel, number, asking, status, body, alloc),
        Event::Cut { channel } => Ok(cut(client, channel)),
        Event::Ready {
            channel,
            session,
            tree,
        } => Ok(ready(client, channel, session, tree)),
        Event::Refused { channel, why } => refused(client, channel, why),
        Event::Finish { why } => Ok(finish(client, why)),
    }
}
