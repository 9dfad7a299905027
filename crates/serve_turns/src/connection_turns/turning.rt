//! One turn of a connection.
ghost use Rattle.serve_turns.specs.shared_book.Words.{view_of, IsSameSeat, IsSeatOf};
ghost use Rattle.serve_turns.specs.connection_turns.Turning.{AsksOnce, HearsOnce};

use crate::connection_turns::connections::Connections;
use crate::event_book::{Answer, Asks, EventBook, Lasting, Turn, What};
use crate::shared_book::{BookSeat, SharedBook};
use base_outside::{Clock, Standing};
use conn_core::{CheckedFrame, Reply, ServeError};
use rand_core::Rng;
use std::sync::Wait;

/// A message's frame, what the server replied to it, and what the connection has there then. A message of which nothing was asked has no
/// reply.
#[derive(Drop)]
pub(crate) struct Asked {
    pub frame: CheckedFrame,
    pub reply: Option<Result<Reply, ServeError>>,
    pub standing: Standing,
}

/// Gives the server one message in a turn of its own. Nothing of the connection is in that turn but what it tells of the message.
pub(crate) fn ask_in_turn<W: Wait, S: Lasting>(
    rt: &W,
    book: &SharedBook<EventBook<S>>,
    seat: &mut BookSeat<EventBook<S>>,
    now: u64,
    asks: Asks,
) -> Asked
    requires own { IsSeatOf book.now seat.old }
    ensures same { IsSameSeat seat.old seat.new }
    ensures asks { AsksOnce (view_of seat.old) now asks result (view_of seat.new) }
{
    let turn = Turn {
        now,
        what: What::Message(asks),
    };
    let (answer, _) = book.apply(rt, seat, turn);
    let Answer {
        frame,
        reply,
        standing,
    } = answer;
    match frame {
        Some(frame) => Asked {
            frame,
            reply,
            standing,
        },
        None => unreachable!(),
    }
}

/// Tells the server in a turn that a connection was made, or is lost: `what` is one of these.
pub(crate) fn hear_in_turn<W, S, C, R>(
    rt: &W,
    outside: &Connections<C, R>,
    book: &SharedBook<EventBook<S>>,
    seat: &mut BookSeat<EventBook<S>>,
    what: What,
) -> Option<Result<Reply, ServeError>>
where
    W: Wait,
    S: Lasting,
    C: Clock,
    R: Rng,
    requires own { IsSeatOf book.now seat.old }
    ensures same { IsSameSeat seat.old seat.new }
    ensures hears { HearsOnce (view_of seat.old) what result (view_of seat.new) }
{
    // Before the turn, so that no other lock is waited for while the server is held.
    let now = outside.now(rt);
    let turn = Turn { now, what };
    let (answer, _) = book.apply(rt, seat, turn);
    let Answer {
        frame: _,
        reply,
        standing: _,
    } = answer;
    reply
}
