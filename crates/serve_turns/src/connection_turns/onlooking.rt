//! Who looks on before an answer goes out.
ghost use Rattle.std.specs.Prelude.{◌≡◌, ℕ, List};
ghost use Rattle.serve_turns.specs.shared_book.Seats.{IsHistory};
ghost use Rattle.serve_turns.specs.shared_book.Words.{view_of, IsSameSeat, IsSeatOf};
ghost use Rattle.serve_turns.specs.connection_turns.Due.{IsAnswerDue};
ghost use Rattle.serve_turns.specs.event_book.Steps.{EventSteps};

use crate::event_book::{EventBook, Lasting};
use crate::shared_book::{BookSeat, SharedBook};
use base_outside::Link;
use std::snapshot::Snapshot;

/// A connection as it began: the server's guid and its number, and what its seat knew and its link had passed then.
#[derive(Drop)]
pub struct Begun<S: Lasting, L: Link> {
    pub guid: [u8; 16],
    pub number: u32,
    pub seat: Snapshot<BookSeat<EventBook<S>>>,
    pub link: Snapshot<L>,
}

/// What is told before each answer goes out. A contract behind a call says nothing of a call that doesn't end, and a server may be served
/// for ever; but this call is made again and again, and what it requires is known each time: the history so far, what the connection has in
/// it, and that the disk stands for all events up to there.
pub trait Onlooker<S: Lasting> {
    /// That it was told of this answer. Without it no answer is put onto a link.
    ghost knows: { Self → List ℕ → Type 0 };

    fn before_write<L: Link>(
        &self,
        begun: &Begun<S, L>,
        seat: &BookSeat<EventBook<S>>,
        link: &L,
        answer: &[u8],
    )
        requires { IsAnswerDue L.told L.given L.left L.written S.shows S.stopped S.faults begun.now.guid begun.now.number
            (view_of begun.now.seat.value) begun.now.link.value (view_of seat.now) link.now answer.now }
        ensures { knows self.now answer.now };
}

/// Nobody looks on.
pub struct Nobody;

impl<S: Lasting> Onlooker<S> for Nobody {
    ghost use Rattle.std.specs.Prelude.{⊤};

    ghost knows = { λ nobody answer. ⊤ };

    fn before_write<L: Link>(
        &self,
        _begun: &Begun<S, L>,
        _seat: &BookSeat<EventBook<S>>,
        _link: &L,
        _answer: &[u8],
    ) {}
}

/// Tells who looks on of an answer, before any of its bytes goes out.
pub(crate) fn look_on<L: Link, S: Lasting, V: Onlooker<S>>(
    onlooker: &V,
    book: &SharedBook<EventBook<S>>,
    begun: &Begun<S, L>,
    seat: &mut BookSeat<EventBook<S>>,
    link: &L,
    answer: &[u8],
)
    requires own { IsSeatOf book.now seat.old }
    requires due { IsHistory (EventSteps S.shows S.stopped S.faults) (view_of seat.old)
        → IsAnswerDue L.told L.given L.left L.written S.shows S.stopped S.faults begun.now.guid begun.now.number
        (view_of begun.now.seat.value)
        begun.now.link.value (view_of seat.old) link.now answer.now }
    ensures same { IsSameSeat seat.old seat.new }
    ensures own { (view_of seat.new).own ≡ (view_of seat.old).own }
    ensures told { V.knows onlooker.now answer.now }
{
    // What the seat knows is looked up in the book, in no turn.
    book.peek(seat);
    onlooker.before_write(begun, seat, link, answer);
}
