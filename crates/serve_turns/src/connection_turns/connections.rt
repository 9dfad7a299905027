//! What serves connections by seats of one server.
ghost use Rattle.std.specs.Prelude.{◌≡◌, IfOk};
ghost use Rattle.serve_turns.specs.shared_book.Words.{view_of, IsSameSeat, IsSeatOf};
ghost use Rattle.serve_turns.specs.connection_turns.Drawing.{BeginsSalted, IsDrawn};
ghost use Rattle.serve_turns.specs.connection_turns.Due.{IsTakenIn};
ghost use Rattle.serve_turns.specs.connection_turns.Ending.{ended_by};
ghost use Rattle.serve_turns.specs.connection_turns.Serving.{LetsGo, OnLink, OnLinkFrames, OnLinkTaken};

use crate::connection_turns::ending::{by, ended, has_lost, refusal_of, stops_behind};
use crate::connection_turns::frames::read_frames;
use crate::connection_turns::onlooking::{Begun, Nobody, Onlooker};
use crate::connection_turns::state::ConnectionState;
use crate::connection_turns::turning::hear_in_turn;
use crate::event_book::{EventBook, Lasting, What};
use crate::link_serving::{Ended, Service, word_of};
use crate::shared_book::{BookSeat, SharedBook};
use base_outside::{Clock, Link, News, Standing};
use conn_core::{Conn, ConnEnd, Reply, ServeError};
use rand_core::Rng;
use std::alloc::{AllocError, Global};
use std::snapshot::Snapshot;
use std::sync::{Mutex, Wait};

/// What connections share beside the server: its guid, a clock and a source of random bytes, each behind a lock.
#[derive(Drop)]
pub struct Connections<C: Clock, R: Rng> {
    pub alloc: Global,
    /// ServerGuid
    pub guid: [u8; 16],
    pub clock: Mutex<C>,
    pub random: Mutex<R>,
}

impl<C: Clock, R: Rng> Connections<C, R> {
    pub(crate) fn now<W: Wait>(&self, rt: &W) -> u64 {
        self.clock.lock(rt).now()
    }

    /// Random bytes for a challenge. They are drawn as they are used, for a frame at a time: those of 4,096 challenges, drawn before the
    /// connection, would take 32 KiB of it, and each event tells its own in the server's history all the same.
    pub(crate) fn fresh<W: Wait>(&self, rt: &W) -> [u8; 8]
        ensures { IsDrawn R.stream 8 result }
    {
        fresh_of(&mut *self.random.lock(rt))
    }

    /// Random bytes for the response to a NEGOTIATE.
    fn salt<W: Wait>(&self, rt: &W) -> [u8; 32]
        ensures { IsDrawn R.stream 32 result }
    {
        salt_of(&mut *self.random.lock(rt))
    }
}

fn fresh_of<R: Rng>(random: &mut R) -> [u8; 8]
    ensures { IsDrawn R.stream 8 result }
{
    let mut bytes = [0u8; 8];
    random.fill_bytes(&mut bytes);
    bytes
}

fn salt_of<R: Rng>(random: &mut R) -> [u8; 32]
    ensures { IsDrawn R.stream 32 result }
{
    let mut bytes = [0u8; 32];
    random.fill_bytes(&mut bytes);
    bytes
}

/// Serves one connection until it ends: a turn when it is made; for each frame that the link gives, in order, one for each of its messages
/// that asks something of the server; and a turn when it has ended, but where it was not taken in. Each answer goes onto the link before
/// the next frame is taken. What was written are the answers, or a front of them where the link failed. Served briefly, it ends as soon as
/// it was taken in, as where no memory was left to read into.
pub fn serve_connection<W, L, S, C, R>(
    rt: &W,
    outside: &Connections<C, R>,
    link: &mut L,
    book: &SharedBook<EventBook<S>>,
    seat: &mut BookSeat<EventBook<S>>,
    number: u32,
    briefly: bool,
) -> Ended
where
    W: Wait,
    L: Link,
    S: Lasting,
    C: Clock,
    R: Rng,
    requires own { IsSeatOf book.now seat.old }
    ensures same { IsSameSeat seat.old seat.new }
    ensures served { OnLink L.told L.given L.left L.written L.faults L.ended outside.now.guid number (view_of seat.old) link.old result
        (view_of seat.new) link.new }
{
    serve_before(rt, outside, &Nobody, link, book, seat, number, briefly)
}

/// The same, before somebody who looks on.
pub fn serve_before<W, L, S, C, R, V>(
    rt: &W,
    outside: &Connections<C, R>,
    onlooker: &V,
    link: &mut L,
    book: &SharedBook<EventBook<S>>,
    seat: &mut BookSeat<EventBook<S>>,
    number: u32,
    briefly: bool,
) -> Ended
where
    W: Wait,
    L: Link,
    S: Lasting,
    C: Clock,
    R: Rng,
    V: Onlooker<S>,
    requires own { IsSeatOf book.now seat.old }
    ensures same { IsSameSeat seat.old seat.new }
    ensures served { OnLink L.told L.given L.left L.written L.faults L.ended outside.now.guid number (view_of seat.old) link.old result
        (view_of seat.new) link.new }
{
    let begun = Begun {
        guid: outside.guid,
        number,
        seat: Snapshot::of(seat),
        link: Snapshot::of(link),
    };
    // Before the connection's own state, so that the server has counted it whatever memory there is.
    let reply = hear_in_turn(rt, outside, book, seat, What::Accept(number));
    match refusal_of(&reply) {
        None => serve_taken(rt, outside, onlooker, &begun, link, book, seat, briefly),
        Some(why) => let_go(rt, outside, book, seat, number, &reply, why),
    }
}

/// A connection that was not taken in. Where the reply to its first turn is lost it was counted, and nobody knows whether it was taken in.
fn let_go<W, S, C, R>(
    rt: &W,
    outside: &Connections<C, R>,
    book: &SharedBook<EventBook<S>>,
    seat: &mut BookSeat<EventBook<S>>,
    number: u32,
    reply: &Option<Result<Reply, ServeError>>,
    why: ConnEnd,
) -> Ended
where
    W: Wait,
    S: Lasting,
    C: Clock,
    R: Rng,
    requires own { IsSeatOf book.now seat.old }
    ensures same { IsSameSeat seat.old seat.new }
    ensures end { result ≡ ended_by why }
    ensures turns { LetsGo number reply.now (view_of seat.old) (view_of seat.new) }
{
    if has_lost(reply) {
        hear_in_turn(rt, outside, book, seat, What::End(number));
        return by(why);
    }
    by(why)
}

/// The state of a connection that was just taken in, with random bytes for its response to a NEGOTIATE.
fn first_state<W, C, R>(
    rt: &W,
    outside: &Connections<C, R>,
    number: u32,
    guid: [u8; 16],
) -> Result<ConnectionState, AllocError>
where
    W: Wait,
    C: Clock,
    R: Rng,
    ensures { IfOk result (λ state. BeginsSalted R.stream number guid state) }
{
    let salt = outside.salt(rt);
    match Conn::new(outside.alloc, number, guid, salt) {
        Ok(conn) => {
            let state = ConnectionState::new(conn);
            Ok(state)
        }
        Err(AllocError) => Err(AllocError),
    }
}

/// The frames of a connection that was taken in, where there is room for its state, and why it ends.
fn serve_frames<W, L, S, C, R, V>(
    rt: &W,
    outside: &Connections<C, R>,
    onlooker: &V,
    begun: &Begun<S, L>,
    link: &mut L,
    book: &SharedBook<EventBook<S>>,
    seat: &mut BookSeat<EventBook<S>>,
    briefly: bool,
) -> Option<ConnEnd>
where
    W: Wait,
    L: Link,
    S: Lasting,
    C: Clock,
    R: Rng,
    V: Onlooker<S>,
    requires own { IsSeatOf book.now seat.old }
    requires taken { IsTakenIn begun.now.number (view_of begun.now.seat.value) (view_of seat.old) }
    requires link { link.old ≡ begun.now.link.value }
    ensures same { IsSameSeat seat.old seat.new }
    ensures frames { OnLinkFrames L.told L.given L.left L.written L.faults L.ended begun.now.guid begun.now.number
        (view_of seat.old) link.old result
        (view_of seat.new) link.new }
{
    let mut state = match first_state(rt, outside, begun.number, begun.guid) {
        Ok(state) => state,
        Err(_) => return Some(ConnEnd::Memory),
    };
    read_frames(
        rt, outside, onlooker, begun, link, book, seat, &mut state, briefly,
    )
}

/// The frames of a connection that was taken in, and its end.
fn serve_taken<W, L, S, C, R, V>(
    rt: &W,
    outside: &Connections<C, R>,
    onlooker: &V,
    begun: &Begun<S, L>,
    link: &mut L,
    book: &SharedBook<EventBook<S>>,
    seat: &mut BookSeat<EventBook<S>>,
    briefly: bool,
) -> Ended
where
    W: Wait,
    L: Link,
    S: Lasting,
    C: Clock,
    R: Rng,
    V: Onlooker<S>,
    requires own { IsSeatOf book.now seat.old }
    requires taken { IsTakenIn begun.now.number (view_of begun.now.seat.value) (view_of seat.old) }
    requires link { link.old ≡ begun.now.link.value }
    ensures same { IsSameSeat seat.old seat.new }
    ensures rest { OnLinkTaken L.told L.given L.left L.written L.faults L.ended begun.now.guid begun.now.number
        (view_of seat.old) link.old result
        (view_of seat.new) link.new }
{
    let why = serve_frames(rt, outside, onlooker, begun, link, book, seat, briefly);
    let last = hear_in_turn(rt, outside, book, seat, What::End(begun.number));
    ended(why, &last)
}

impl<S, C, R> Service<EventBook<S>> for Connections<C, R>
where
    S: Lasting,
    C: Clock + Send,
    R: Rng + Send,
{
    type End = Ended;

    ghost use Rattle.std.specs.Prelude.{◌%◌, ◌^◌};
    ghost use Rattle.serve_turns.specs.connection_turns.Ending.{stops_behind};
    ghost use Rattle.serve_turns.specs.connection_turns.Serving.{Serves};

    ghost serves = { λ service number passed from end to. Serves service.guid (number % 2 ^ 32) passed from end to };

    ghost stops = { λ _ end. stops_behind end };

    fn serve<W: Wait, L: Link>(
        &self,
        rt: &W,
        link: &mut L,
        book: &SharedBook<EventBook<S>>,
        seat: &mut BookSeat<EventBook<S>>,
        number: u64,
        briefly: bool,
    ) -> Ended {
        let number = (number % 4_294_967_296) as u32;
        let end = serve_connection(rt, self, link, book, seat, number, briefly);
        link.note(&Standing::nothing(), &News::Ended(word_of(end)));
        end
    }

    fn turn_away<L: Link>(&self, link: &mut L) -> Ended {
        let end = by(ConnEnd::Memory);
        link.note(&Standing::nothing(), &News::Ended(word_of(end)));
        end
    }

    fn halts(&self, end: &Ended) -> bool {
        stops_behind(*end)
    }
}
