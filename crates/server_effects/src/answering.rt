//! Answers to messages.
ghost use Rattle.std.specs.Prelude.{◌≡◌, false, true};
ghost use Rattle.wire_commands.specs.values.Meaning.{body_of, message_of, reply_of};
ghost use Rattle.spec_exchange.specs.Status.{success};
ghost use Rattle.server_effects.specs.Carried.{IsEffectAnswer};

use server_checks::status::SUCCESS;
use spec_crypto::Keys;
use std::alloc::Global;
use wire_bytes::Bytes;
use wire_commands::{Body, Message, Reply};

/// What the server answers. `acted` tells whether files, the set of opens or ranges changed.
#[derive(Drop, Debug)]
pub struct Answer {
    pub reply: Reply,
    pub acted: bool,
    /// Of a SESSION_SETUP: the token of its response; empty where it has none.
    pub token: Bytes,
    /// The keys of the channel that a SESSION_SETUP made.
    pub keys: Option<Keys>,
    /// The number of the channel that a SESSION_SETUP made, from 1 in its session.
    pub channel: Option<u16>,
}

/// A reply with the ids of its message.
pub fn reply(m: &Message<'_>, status: u32, body: Body) -> Reply
    ensures { reply_of result
        ≡ record { status = status; session_id = m.now.session_id; tree_id = m.now.tree_id; body = body_of body } }
{
    Reply {
        status,
        session_id: m.session_id,
        tree_id: m.tree_id,
        body,
    }
}

/// An answer with nothing beside its reply.
pub fn answer_with(alloc: Global, m: &Message<'_>, status: u32, body: Body, acted: bool) -> Answer
    ensures { IsEffectAnswer result (message_of m.now) status (body_of body) acted }
{
    Answer {
        reply: reply(m, status, body),
        acted,
        token: Bytes::new(alloc),
        keys: None,
        channel: None,
    }
}

/// Nothing in the files, the set of opens and the ranges changed.
pub fn quiet(alloc: Global, m: &Message<'_>, status: u32, body: Body) -> Answer
    ensures { IsEffectAnswer result (message_of m.now) status (body_of body) false }
{
    answer_with(alloc, m, status, body, false)
}

/// A success that changed them.
pub fn acting(alloc: Global, m: &Message<'_>, body: Body) -> Answer
    ensures { IsEffectAnswer result (message_of m.now) success (body_of body) true }
{
    answer_with(alloc, m, SUCCESS, body, true)
}
