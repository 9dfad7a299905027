//! The messages of a checked frame, one after the other: each that asks something of the server in a turn of its own.
ghost use Rattle.std.specs.Prelude.{◌≡◌, ◌≤◌, ◌<◌, ◌+◌, ◌==◌, [], false, true, Some, length, option_map, slice_get, vec_capacity};
ghost use Rattle.spec_world.specs.Given.{is_past_setups};
ghost use Rattle.conn_core.specs.declared.frame_messages.checked.Checked.{Checked};
ghost use Rattle.conn_core.specs.frame_messages.Checking.{AreDenied, AreInOrder, HasMessage, holds_setup};
ghost use Rattle.conn_core.specs.frame_events.Dealing.{AreShortIf};
ghost use Rattle.conn_core.specs.message_replies.Replying.{AreMessagesShort};
ghost use Rattle.conn_core.specs.related.Carrying.{carry_of};
ghost use Rattle.serve_turns.specs.shared_book.Words.{view_of, IsSameSeat, IsSeatOf};
ghost use Rattle.serve_turns.specs.event_book.Places.{is_asked};
ghost use Rattle.serve_turns.specs.connection_turns.Messages.{DealsFor, TakesMessage, TakesMessages, TakesTurn};

use crate::connection_turns::state::ConnectionState;
use crate::connection_turns::turning::{Asked, ask_in_turn};
use crate::event_book::{Asks, EventBook, Lasting};
use crate::shared_book::{BookSeat, SharedBook};
use conn_core::{
    Carry, Checked, CheckedFrame, ConnEnd, Dealt, Moment, Reply, ServeError, Told, goes, hand_on,
    has_event, refuse, told_of,
};
use std::alloc::Global;
use std::mem;
use std::sync::Wait;

/// How many SESSION_SETUPs of a connection the server hears. MS-SMB2 has no number.
const MOST_SETUPS: u32 = 4096;

const SESSION_SETUP: u16 = 1;

/// STATUS_INSUFFICIENT_RESOURCES (MS-ERREF 2.3.1)
const INSUFFICIENT_RESOURCES: u32 = 0xc000_009a;

fn is_setup(checked: &Checked) -> bool
    ensures { result ≡ (checked.now.header.command == 1) }
{
    checked.header.command == SESSION_SETUP
}

/// Whether a frame holds a SESSION_SETUP.
pub(crate) fn holds_setup(asked: &CheckedFrame) -> bool
    ensures { result ≡ holds_setup asked.now.messages.items }
{
    asked.messages.iter().any(|checked| is_setup(checked))
}

/// Whether it is a SESSION_SETUP behind as many as the server hears of a connection.
fn is_late(setups: u32, checked: &Checked) -> bool
    ensures { result ≡ is_past_setups setups checked.now.header }
{
    is_setup(checked) && setups >= MOST_SETUPS
}

/// What stands for a frame that is in a turn.
fn hollow(alloc: Global) -> CheckedFrame {
    CheckedFrame {
        bytes: Vec::new(alloc),
        messages: Vec::new(alloc),
        sealed: false,
        moment: 0,
    }
}

fn asks_of(frame: CheckedFrame, at: usize, told: Told) -> Asks
    requires { is_asked frame at ≡ true }
    ensures { (result.frame ≡ frame) × (result.at ≡ at) × (result.told ≡ told) }
{
    Asks { frame, at, told }
}

/// Gives the server a message of a frame that asks something, in a turn of its own. The frame is as it was. What the turn is told of the
/// connection is what `told_of` tells; all else of it stays outside.
fn answer_in_turn<W, S>(
    rt: &W,
    book: &SharedBook<EventBook<S>>,
    seat: &mut BookSeat<EventBook<S>>,
    moment: &Moment,
    state: &mut ConnectionState,
    asked: &mut CheckedFrame,
    at: usize,
) -> Option<Result<Reply, ServeError>>
where
    W: Wait,
    S: Lasting,
    requires own { IsSeatOf book.now seat.old }
    requires asks { is_asked asked.old at ≡ true }
    ensures same { IsSameSeat seat.old seat.new }
    ensures frame { asked.new ≡ asked.old }
    ensures takes { (m : Checked) → slice_get asked.old.messages.items at ≡ Some m
        → TakesTurn (view_of seat.old) moment.now.time moment.now.fresh state.old asked.old at m state.new result (view_of seat.new) }
    ensures short { AreShortIf result }
{
    let setup = is_setup(&asked.messages[at]);
    let told = told_of(&state.conn, asked, at, moment.fresh);
    let frame = mem::replace(asked, hollow(state.conn.alloc));
    let asks = asks_of(frame, at, told);
    let given = ask_in_turn(rt, book, seat, moment.time, asks);
    let Asked {
        frame,
        reply,
        standing,
    } = given;
    *asked = frame;
    state.count(setup);
    state.standing = standing;
    reply
}

/// A message that goes its way, and what it hands on. A SESSION_SETUP behind as many as the server hears is refused without a turn.
fn deal_in_turn<W, S>(
    rt: &W,
    book: &SharedBook<EventBook<S>>,
    seat: &mut BookSeat<EventBook<S>>,
    moment: &Moment,
    state: &mut ConnectionState,
    asked: &mut CheckedFrame,
    at: usize,
    carried: &Option<Carry>,
    dealt: &mut Dealt,
) -> Result<Carry, ConnEnd>
where
    W: Wait,
    S: Lasting,
    requires own { IsSeatOf book.now seat.old }
    requires message { HasMessage asked.old at }
    requires denied { AreDenied asked.old }
    requires room { length dealt.old.replies.items.items < vec_capacity dealt.old.replies.items }
    ensures same { IsSameSeat seat.old seat.new }
    ensures frame { asked.new ≡ asked.old }
    ensures deals { DealsFor (view_of seat.old) moment.now.time moment.now.fresh state.old asked.old at (option_map carry_of carried.now)
        dealt.old state.new dealt.new result (view_of seat.new) }
    ensures room { vec_capacity dealt.old.replies.items ≤ vec_capacity dealt.new.replies.items }
{
    let checked = &asked.messages[at];
    if !has_event(checked) {
        return hand_on(asked, at, carried, dealt, None);
    }
    if is_late(state.setups, checked) {
        let alloc = state.conn.alloc;
        return refuse(alloc, asked, at, carried, dealt, INSUFFICIENT_RESOURCES);
    }
    let answer = answer_in_turn(rt, book, seat, moment, state, asked, at);
    hand_on(asked, at, carried, dealt, answer)
}

/// One message in its turn: what is handed on behind it.
fn take_message<W, S>(
    rt: &W,
    book: &SharedBook<EventBook<S>>,
    seat: &mut BookSeat<EventBook<S>>,
    moment: &Moment,
    state: &mut ConnectionState,
    asked: &mut CheckedFrame,
    at: usize,
    carried: &Option<Carry>,
    dealt: &mut Dealt,
) -> Result<Option<Carry>, ConnEnd>
where
    W: Wait,
    S: Lasting,
    requires own { IsSeatOf book.now seat.old }
    requires order { AreInOrder asked.old }
    requires denied { AreDenied asked.old }
    requires there { at < length asked.old.messages.items }
    requires room { length dealt.old.replies.items.items < vec_capacity dealt.old.replies.items }
    ensures same { IsSameSeat seat.old seat.new }
    ensures takes { TakesMessage (view_of seat.old) moment.now.time moment.now.fresh state.old asked.old at (option_map carry_of carried.now)
        dealt.old state.new asked.new dealt.new result (view_of seat.new) }
    ensures order { AreInOrder asked.new }
    ensures denied { AreDenied asked.new }
    ensures setups { holds_setup asked.new.messages.items ≡ holds_setup asked.old.messages.items }
    ensures kept { (length asked.new.messages.items ≡ length asked.old.messages.items) × (asked.new.sealed ≡ asked.old.sealed)
        × (asked.new.moment ≡ asked.old.moment) }
    ensures room { (vec_capacity dealt.old.replies.items ≤ vec_capacity dealt.new.replies.items)
        × (length dealt.new.replies.items.items ≤ length dealt.old.replies.items.items + 1) }
    ensures short { AreMessagesShort dealt.old.replies.items.items → AreMessagesShort dealt.new.replies.items.items }
{
    if !goes(asked, at, carried) {
        return Ok(*carried);
    }
    match deal_in_turn(rt, book, seat, moment, state, asked, at, carried, dealt) {
        Ok(behind) => Ok(Some(behind)),
        Err(why) => Err(why),
    }
}

/// All messages of a frame in order. Behind one at which the server stopped, and behind one whose reply is lost, no message has an event.
pub(crate) fn take_messages<W, S>(
    rt: &W,
    book: &SharedBook<EventBook<S>>,
    seat: &mut BookSeat<EventBook<S>>,
    moment: &Moment,
    state: &mut ConnectionState,
    asked: &mut CheckedFrame,
    dealt: &mut Dealt,
) -> Result<(), ConnEnd>
where
    W: Wait,
    S: Lasting,
    requires own { IsSeatOf book.now seat.old }
    requires order { AreInOrder asked.old }
    requires denied { AreDenied asked.old }
    requires none { (dealt.old.replies.items.items ≡ []) × (dealt.old.took ≡ false) }
    requires room { length asked.old.messages.items ≤ vec_capacity dealt.old.replies.items }
    ensures same { IsSameSeat seat.old seat.new }
    ensures takes { TakesMessages (view_of seat.old) moment.now.time moment.now.fresh state.old asked.old state.new asked.new dealt.new
        result (view_of seat.new) }
    ensures order { AreInOrder asked.new }
    ensures short { AreMessagesShort dealt.new.replies.items.items }
{
    let mut carried: Option<Carry> = None;
    for at in 0..asked.messages.len() {
        match take_message(rt, book, seat, moment, state, asked, at, &carried, dealt) {
            Ok(behind) => carried = behind,
            Err(why) => return Err(why),
        }
    }
    Ok(())
}
