//! What a message of a frame hands on and adds to what the events came to, whoever answered it.
ghost use Rattle.std.specs.Prelude.{◌≡◌, ◌≤◌, ◌<◌, ◌||◌, [], false, IfOk, None, Option, length, option_copied, option_map, slice_get, Some, vec_capacity};
ghost use Rattle.spec_world.specs.Hearing as hearing;
ghost use Rattle.spec_world.specs.Related.{failed_as, turn_of};
ghost use Rattle.conn_core.specs.declared.frame_messages.checked.Checked.{Checked};
ghost use Rattle.conn_core.specs.frame_messages.Checking.{AreDenied, AreInOrder, HasMessage, holds_setup, message_in};
ghost use Rattle.conn_core.specs.related.Carrying.{carry_of, Inherits, IsCarried, SameOthers};
ghost use Rattle.conn_core.specs.frame_events.Dealing.{AreShortIf, DealsOne, EventAdds, RefusesOne, lost_by, stopped_by};
ghost use Rattle.conn_core.specs.frame_events.Dealing as dealing;

use crate::end::ConnEnd;
use crate::frame_messages::{Checked, CheckedFrame};
use crate::related::{Carry, carry, inherit};
use crate::served::{Replies, Reply, ServeError};
use std::alloc::{AllocError, Global};

const CANCEL: u16 = 12;

/// What the events of a frame came to.
#[derive(Drop)]
pub struct Dealt {
    /// The server's answers, one for each message that has an event.
    pub replies: Replies,
    /// A message was taken: it is no CANCEL, went its way, and its event, if it has one, was carried out.
    pub took: bool,
}

/// No answers yet, with room for so many.
pub fn dealt_for(alloc: Global, count: usize) -> Result<Dealt, AllocError>
    ensures none { IfOk result (λ d. (d.replies.items.items ≡ []) × (d.took ≡ false)) }
    ensures room { IfOk result (λ d. count ≤ vec_capacity d.replies.items) }
{
    let replies = Replies::with_room(alloc, count)?;
    Ok(Dealt {
        replies,
        took: false,
    })
}

/// The count of the disk's faults at which a server stopped.
fn stop_of(answer: &Result<Reply, ServeError>) -> Option<u64>
    ensures { result ≡ stopped_by answer.now }
{
    match answer {
        Err(ServeError::Stopped(count)) => Some(*count),
        Err(ServeError::Unanswered { acted: _ }) => None,
        Err(ServeError::Memory) => None,
        Ok(_) => None,
    }
}

/// Whether an event was carried out, but its reply is lost.
fn is_lost(answer: &Result<Reply, ServeError>) -> bool
    ensures { result ≡ lost_by answer.now }
{
    matches!(answer, Err(ServeError::Unanswered { acted: _ }))
}

/// Whether a message that goes its way is taken, by the answer to its event.
fn takes(checked: &Checked, answer: Option<&Result<Reply, ServeError>>) -> bool
    ensures { result ≡ dealing.takes checked.now (option_copied answer.entry) }
{
    match answer {
        None => checked.header.command != CANCEL,
        Some(Ok(_)) => true,
        Some(Err(ServeError::Unanswered { acted: _ })) => true,
        Some(Err(ServeError::Memory)) => false,
        Some(Err(ServeError::Stopped(_))) => false,
    }
}

/// Adds the answer to an event, if there is one. A server that stopped is told by its count; where the reply to an event is
/// lost, memory ran out.
fn add(dealt: &mut Dealt, answer: Option<Result<Reply, ServeError>>) -> Result<(), ConnEnd>
    requires { length dealt.old.replies.items.items < vec_capacity dealt.old.replies.items }
    ensures adds { EventAdds answer dealt.old dealt.new result }
    ensures room { vec_capacity dealt.old.replies.items ≤ vec_capacity dealt.new.replies.items }
{
    if let Some(answer) = answer {
        if let Some(count) = stop_of(&answer) {
            return Err(ConnEnd::Stopped(count));
        }
        let is_lost = is_lost(&answer);
        dealt.replies.push(answer)?;
        if is_lost {
            return Err(ConnEnd::Memory);
        }
    }
    Ok(())
}

/// What becomes of a message behind what was handed on: false where it fails with a CREATE before it.
pub fn goes(asked: &mut CheckedFrame, at: usize, carried: &Option<Carry>) -> bool
    requires { HasMessage asked.old at }
    ensures turn { (m n : Checked) (c : hearing.Checked) → slice_get asked.old.messages.items at ≡ Some m
        → slice_get asked.new.messages.items at ≡ Some n → IsCarried m (message_in asked.old.bytes.items m) c → c.related ≡ m.related
        → m.fails ≡ None → Inherits (turn_of (option_map carry_of carried.now) c) result (failed_as (option_map carry_of carried.now) c) n
        (message_in asked.new.bytes.items n) }
    ensures place { (m n : Checked) → slice_get asked.old.messages.items at ≡ Some m
        → slice_get asked.new.messages.items at ≡ Some n → (n.span ≡ m.span) × (n.related ≡ m.related) }
    ensures others { SameOthers at asked.old asked.new }
    ensures order { AreInOrder asked.old → AreInOrder asked.new }
    ensures denied { AreDenied asked.old → AreDenied asked.new }
    ensures setups { holds_setup asked.new.messages.items ≡ holds_setup asked.old.messages.items }
{
    match carried {
        None => true,
        Some(before) => inherit(asked, at, before),
    }
}

/// What a message that goes its way hands on behind the answer to its event, if it has one.
pub fn hand_on(
    asked: &CheckedFrame,
    at: usize,
    carried: &Option<Carry>,
    dealt: &mut Dealt,
    answer: Option<Result<Reply, ServeError>>,
) -> Result<Carry, ConnEnd>
    requires message { HasMessage asked.now at }
    requires room { length dealt.old.replies.items.items < vec_capacity dealt.old.replies.items }
    requires short { AreShortIf answer }
    ensures room { vec_capacity dealt.old.replies.items ≤ vec_capacity dealt.new.replies.items }
    ensures deals { (m : Checked) → slice_get asked.now.messages.items at ≡ Some m
        → DealsOne m (message_in asked.now.bytes.items m) (option_map carry_of carried.now) answer dealt.old dealt.new result }
{
    let behind = carry(asked, at, carried, answer.as_ref());
    let takes = takes(asked.checked(at), answer.as_ref());
    dealt.took = dealt.took || takes;
    add(dealt, answer)?;
    Ok(behind)
}

/// What a message that goes its way hands on where it has no event, but is refused with this status, which isn't a success: as a
/// SESSION_SETUP for which no random bytes are left. Where there is no memory nothing changes.
pub fn refuse(
    alloc: Global,
    asked: &CheckedFrame,
    at: usize,
    carried: &Option<Carry>,
    dealt: &mut Dealt,
    status: u32,
) -> Result<Carry, ConnEnd>
    requires message { HasMessage asked.now at }
    requires room { length dealt.old.replies.items.items < vec_capacity dealt.old.replies.items }
    ensures room { vec_capacity dealt.old.replies.items ≤ vec_capacity dealt.new.replies.items }
    ensures refuses { (m : Checked) → slice_get asked.now.messages.items at ≡ Some m
        → RefusesOne m (message_in asked.now.bytes.items m) (option_map carry_of carried.now) status dealt.old dealt.new result }
{
    let reply = match Reply::refused(alloc, asked.checked(at), status) {
        Ok(reply) => reply,
        Err(_) => return Err(ConnEnd::Memory),
    };
    let answer = Ok(reply);
    let behind = carry(asked, at, carried, Some(&answer));
    match dealt.replies.push(answer) {
        Ok(()) => Ok(behind),
        Err(_) => Err(ConnEnd::Memory),
    }
}
