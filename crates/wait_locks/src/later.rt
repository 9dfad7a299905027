//! Responses that an event gives: its own, and final ones to waiters (MS-SMB2 3.3.4.2).
ghost use Rattle.std.specs.Prelude.{◌≡◌};
ghost use Rattle.law_waiting.specs.wait_steps.WaitStep as tells;
ghost use Rattle.law_waiting.specs.wait_steps.WaitStep.{cancelled_to, later_to, pending_to};
ghost use Rattle.wait_locks.specs.Kept.{kept_message, waiter_of};
ghost use Rattle.wait_locks.specs.Begun.{IsOfNoStep};
ghost use Rattle.wait_locks.specs.Told.{own_response, response_of};
ghost use Rattle.wire_commands.specs.values.Meaning.{reply_of};

use crate::waiter::Waiter;
use server_effects::Answer;
use std::alloc::Global;
use wire_bytes::Bytes;
use wire_commands::{Body, Reply};

/// A final response to a LOCK that waited.
#[derive(Drop, Debug)]
pub struct Later {
    pub connection: u32,
    pub message: u64,
    pub async_id: u64,
    pub reply: Reply,
}

/// The answer to an event itself. Of an event that is no message the MessageId is 0.
#[derive(Drop, Debug)]
pub struct OwnAnswer {
    pub connection: u32,
    pub message: u64,
    /// Of a LOCK that waits; else 0.
    pub async_id: u64,
    /// The reply, and a logon's token, keys and channel.
    pub answer: Answer,
}

/// The event's own answer, which a CANCEL hasn't, and the final responses to waiters in order.
#[derive(Drop, Debug)]
pub struct LaterList {
    pub own: Option<OwnAnswer>,
    pub finals: Vec<Later>,
}

/// The response to one that waits.
pub fn later_to(waiter: &Waiter, reply: Reply) -> Later
    ensures { response_of result ≡ later_to (waiter_of waiter.now) (reply_of reply) }
{
    Later {
        connection: waiter.connection,
        message: waiter.message_id,
        async_id: waiter.async_id,
        reply,
    }
}

/// Of one that a CANCEL took out, or a later LOCK of its slot.
pub fn cancelled_to(waiter: &Waiter) -> Later
    ensures { response_of result ≡ cancelled_to (waiter_of waiter.now) }
{
    later_to(waiter, without_body(waiter, 0xc000_0120))
}

/// That a LOCK waits.
pub fn pending_to(alloc: Global, waiter: &Waiter) -> OwnAnswer
    ensures response { own_response result ≡ pending_to (waiter_of waiter.now) }
    ensures alone { IsOfNoStep result.answer }
{
    answered(alloc, waiter, waiter.async_id, 0x103)
}

/// That there is no place for it to wait.
pub fn turned_away(alloc: Global, waiter: &Waiter) -> OwnAnswer
    ensures response { own_response result ≡ tells.at_once_to (kept_message waiter.now) (tells.reply_of (kept_message waiter.now) 0xc000_009a) }
    ensures alone { IsOfNoStep result.answer }
{
    answered(alloc, waiter, 0, 0xc000_009a)
}

// With this status, of no step of the server.
fn answered(alloc: Global, waiter: &Waiter, async_id: u64, status: u32) -> OwnAnswer
    ensures response { own_response result ≡ record {
      connection = waiter.now.connection;
      message = waiter.now.message_id;
      async_id = async_id;
      reply = tells.reply_of (kept_message waiter.now) status;
    } }
    ensures alone { IsOfNoStep result.answer }
{
    OwnAnswer {
        connection: waiter.connection,
        message: waiter.message_id,
        async_id,
        answer: Answer {
            reply: without_body(waiter, status),
            acted: false,
            token: Bytes::new(alloc),
            keys: None,
            channel: None,
        },
    }
}

fn without_body(waiter: &Waiter, status: u32) -> Reply
    ensures { reply_of result ≡ tells.reply_of (kept_message waiter.now) status }
{
    Reply {
        status,
        session_id: waiter.session_id,
        tree_id: waiter.tree_id,
        body: Body::Empty,
    }
}
