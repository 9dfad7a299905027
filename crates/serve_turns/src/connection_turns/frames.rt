//! The frames of one connection.
ghost use Rattle.std.specs.Prelude.{◌≡◌, ◌<◌, List, [], length, vec_len, IfOk};
ghost use Rattle.spec_exchange.specs.State.{Server};
ghost use Rattle.spec_wire.specs.credits.Window.{HeldIds};
ghost use Rattle.spec_world.specs.Answering as answering;
ghost use Rattle.spec_world.specs.Ends.{Logons, ServerEnd};
ghost use Rattle.spec_world.specs.Hearing as hearing;
ghost use Rattle.spec_world.specs.Settings.{ServerSettings};
ghost use Rattle.conn_core.specs.Shown.{ShowsEnd};
ghost use Rattle.conn_core.specs.frame_messages.Checking.{AllHaveMessages, holds_setup};
ghost use Rattle.conn_core.specs.message_replies.Replying.{AreMessagesShort};
ghost use Rattle.conn_core.specs.reply_frames.Replying.{AreAnswers, WalkReplies, walk_replied};
ghost use Rattle.serve_turns.specs.shared_book.Words.{view_of, IsSameSeat, IsSeatOf};
ghost use Rattle.serve_turns.specs.connection_turns.Drawing.{HasDrawn, IsDrawnIf};
ghost use Rattle.serve_turns.specs.connection_turns.Due.{IsUnderWay};
ghost use Rattle.serve_turns.specs.connection_turns.Passing.{Feeds, FrameTaken, NextFrame, Puts, Stops, TakesAll};

use crate::connection_turns::connections::Connections;
use crate::connection_turns::messages::{holds_setup, take_messages};
use crate::connection_turns::news::news_of;
use crate::connection_turns::onlooking::{Begun, Onlooker, look_on};
use crate::connection_turns::state::ConnectionState;
use crate::connection_turns::writing::write_all;
use crate::event_book::{EventBook, Lasting};
use crate::shared_book::{BookSeat, SharedBook};
use base_outside::{Clock, Link, News, Standing};
use conn_core::{CheckedFrame, ConnEnd, Dealt, Moment, answer, check_own, dealt_for};
use rand_core::Rng;
use std::alloc::{AllocError, Global};
use std::sync::Wait;
use wire_bytes::{Bytes, Deframer};

/// How many bytes a read takes at most.
const PIECE: usize = 65536;

/// What the next whole frame of a stream is, none, or why the connection ends.
fn next_frame(stream: &mut Deframer) -> Result<Option<Bytes>, ConnEnd>
    ensures { NextFrame stream.old stream.new result }
{
    match stream.next() {
        Ok(Some(frame)) => Ok(Some(frame.bytes)),
        Ok(None) => Ok(None),
        Err(refusal) => Err(ConnEnd::from(refusal)),
    }
}

/// The answer to a frame whose messages were all taken, by which its news is known.
fn finish(
    state: &mut ConnectionState,
    asked: &CheckedFrame,
    dealt: &Dealt,
) -> Result<Vec<u8>, ConnEnd>
    requires messages { AllHaveMessages asked.now }
    requires short { AreMessagesShort dealt.now.replies.items.items }
    ensures setups { state.new.setups ≡ state.old.setups }
    ensures replies { (z : ServerSettings) (s : Server) (L : Logons) (f : ServerEnd) (cs : List hearing.Checked)
        (ss : List answering.SaidReply) (w : HeldIds) → ShowsEnd state.old.conn.id z.guid state.old.conn f
        → AreAnswers z f cs ss w asked.now dealt.now.replies.items.items
        → WalkReplies state.old.conn.id z.guid (walk_replied s L f asked.now.sealed w ss) state.new.conn result }
{
    state.news = news_of(asked, &dealt.replies);
    answer(&mut state.conn, asked, &dealt.replies)
}

/// Random bytes for the challenge of a SESSION_SETUP in a frame. Where it holds none no bytes are drawn, since no event of it asks for any.
fn fresh_for<W, C, R>(rt: &W, outside: &Connections<C, R>, asked: &CheckedFrame) -> [u8; 8]
where
    W: Wait,
    C: Clock,
    R: Rng,
    ensures { IsDrawnIf R.stream (holds_setup asked.now.messages.items) result }
{
    if !holds_setup(asked) {
        return [0; 8];
    }
    outside.fresh(rt)
}

/// Takes a frame: it is opened and checked, each message that asks something of the server has a turn, and the replies are sealed or
/// signed. Nothing of a cipher is in a turn. The clock is read once, and random bytes are drawn once at most, as at most one SESSION_SETUP
/// is heard.
fn take_frame<W, S, C, R>(
    rt: &W,
    outside: &Connections<C, R>,
    book: &SharedBook<EventBook<S>>,
    seat: &mut BookSeat<EventBook<S>>,
    state: &mut ConnectionState,
    frame: Vec<u8>,
) -> Result<Vec<u8>, ConnEnd>
where
    W: Wait,
    S: Lasting,
    C: Clock,
    R: Rng,
    requires own { IsSeatOf book.now seat.old }
    ensures same { IsSameSeat seat.old seat.new }
    ensures takes { FrameTaken (view_of seat.old) state.old frame.items result state.new (view_of seat.new) }
    ensures draws { HasDrawn R.stream (view_of seat.old) (view_of seat.new) }
{
    state.news = None;
    let now = outside.now(rt);
    let mut asked = match check_own(&mut state.conn, frame, now) {
        Ok(asked) => asked,
        Err(why) => return Err(why),
    };
    // Before the first event, so that there is a place for the answer to each one that acts.
    let mut dealt = match dealt_for(state.conn.alloc, asked.messages.len()) {
        Ok(dealt) => dealt,
        Err(AllocError) => return Err(ConnEnd::Memory),
    };
    // Before the first turn, so that no other lock is waited for while the server is held.
    let fresh = fresh_for(rt, outside, &asked);
    let moment = Moment { time: now, fresh };
    match take_messages(rt, book, seat, &moment, state, &mut asked, &mut dealt) {
        Ok(()) => finish(state, &asked, &dealt),
        Err(why) => Err(why),
    }
}

/// Tells the link what a frame brought, if the server heard anything of it, and how its connection stands. Else what was told before may be
/// out of date, as another channel's events aren't heard of here.
fn tell<L: Link>(link: &mut L, standing: &Standing, news: &Option<News>)
    ensures bytes { L.told → (L.left link.new ≡ L.left link.old) × (L.given link.new ≡ L.given link.old)
        × (L.written link.new ≡ L.written link.old) }
    ensures calm { L.faults link.new ≡ L.faults link.old }
{
    if let Some(news) = news {
        link.note(standing, news);
    }
}

/// Puts the answer to a frame, of which who looks on was told, onto the link, which hears first what the frame brought. Where the link
/// fails, the connection ends.
fn put_answer<L: Link, S: Lasting, V: Onlooker<S>>(
    _onlooker: &V,
    link: &mut L,
    standing: &Standing,
    news: &Option<News>,
    answer: &[u8],
) -> Result<(), ConnEnd>
    requires { V.knows _onlooker.now answer.now }
    ensures { Puts L.told L.given L.left L.written L.faults link.old answer.now link.new result }
{
    // Before the write, so that its time-outs hold for it.
    tell(link, standing, news);
    match write_all(link, answer) {
        Ok(()) => Ok(()),
        Err(_) => Err(ConnEnd::LinkFault(link.fault_count())),
    }
}

/// Where a read puts what it takes. A connection that is served briefly gets none, so that it ends where memory has run out.
fn empty_piece(alloc: Global, briefly: bool) -> Result<Vec<u8>, AllocError>
    ensures { IfOk result (λ piece. 0 < vec_len piece) }
{
    if briefly {
        return Err(AllocError);
    }
    vec![in alloc; 0u8; PIECE]
}

/// Adds to a stream what the link gives next. Else the connection ends: as the peer has ended it, or by a cause.
fn feed_from<L: Link>(
    link: &mut L,
    stream: &mut Deframer,
    piece: &mut [u8],
) -> Result<(), Option<ConnEnd>>
    requires room { 0 < length piece.old }
    ensures { Feeds L.told L.given L.left L.written L.faults L.ended link.old stream.old link.new stream.new result }
{
    match link.read(piece) {
        Ok(0) => Err(None),
        Ok(count) => match stream.feed(&piece[..count]) {
            Ok(()) => Ok(()),
            Err(_) => Err(Some(ConnEnd::Memory)),
        },
        Err(_) => Err(Some(ConnEnd::LinkFault(link.fault_count()))),
    }
}

/// Each whole frame of the stream, and its answer onto the link, of which who looks on is told first.
fn take_frames<W, L, S, C, R, V>(
    rt: &W,
    outside: &Connections<C, R>,
    onlooker: &V,
    begun: &Begun<S, L>,
    link: &mut L,
    book: &SharedBook<EventBook<S>>,
    seat: &mut BookSeat<EventBook<S>>,
    stream: &mut Deframer,
    state: &mut ConnectionState,
) -> Option<ConnEnd>
where
    W: Wait,
    L: Link,
    S: Lasting,
    C: Clock,
    R: Rng,
    V: Onlooker<S>,
    requires own { IsSeatOf book.now seat.old }
    requires way { IsUnderWay L.told L.given L.left L.written begun.now.guid begun.now.number
        (view_of begun.now.seat.value) begun.now.link.value
        (view_of seat.old) state.old stream.old link.old }
    ensures same { IsSameSeat seat.old seat.new }
    ensures frames { TakesAll L.told L.given L.left L.written L.faults L.ended (view_of seat.old) state.old stream.old link.old
        (view_of seat.new) state.new stream.new link.new result }
{
    for _ in rt.forever() {
        let frame = match next_frame(stream) {
            Ok(Some(frame)) => frame,
            Ok(None) => return None,
            Err(why) => return Some(why),
        };
        let answer = match take_frame(rt, outside, book, seat, state, frame.into_vec()) {
            Ok(answer) => answer,
            Err(why) => return Some(why),
        };
        let text = answer.as_slice();
        look_on(onlooker, book, begun, seat, link, text);
        if let Err(why) = put_answer(onlooker, link, &state.standing, &state.news, text) {
            return Some(why);
        }
    }
    unreachable!()
}

/// Reads what the peer sends, up to where the connection ends.
pub(crate) fn read_frames<W, L, S, C, R, V>(
    rt: &W,
    outside: &Connections<C, R>,
    onlooker: &V,
    begun: &Begun<S, L>,
    link: &mut L,
    book: &SharedBook<EventBook<S>>,
    seat: &mut BookSeat<EventBook<S>>,
    state: &mut ConnectionState,
    briefly: bool,
) -> Option<ConnEnd>
where
    W: Wait,
    L: Link,
    S: Lasting,
    C: Clock,
    R: Rng,
    V: Onlooker<S>,
    requires own { IsSeatOf book.now seat.old }
    requires way { IsUnderWay L.told L.given L.left L.written begun.now.guid begun.now.number
        (view_of begun.now.seat.value) begun.now.link.value
        (view_of seat.old) state.old [] link.old }
    ensures same { IsSameSeat seat.old seat.new }
    ensures frames { Stops L.told L.given L.left L.written L.faults L.ended (view_of seat.old) state.old [] link.old (view_of seat.new)
        link.new result }
{
    let mut stream = Deframer::new(outside.alloc);
    let mut piece = match empty_piece(outside.alloc, briefly) {
        Ok(piece) => piece,
        Err(_) => return Some(ConnEnd::Memory),
    };
    for _ in rt.forever() {
        if let Err(why) = feed_from(link, &mut stream, &mut piece) {
            return why;
        }
        let why = take_frames(
            rt,
            outside,
            onlooker,
            begun,
            link,
            book,
            seat,
            &mut stream,
            state,
        );
        if why.is_some() {
            return why;
        }
    }
    unreachable!()
}
