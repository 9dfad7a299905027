//! Links that are served, each by a seat of one book.
ghost use Rattle.std.specs.Prelude.{◌≡◌, ◌+◌, ◌<◌, ◌≤◌, ◌^◌, ℕ, Bool, List, None, Some, length, set, get_or};
ghost use Rattle.serve_turns.specs.declared.shared_book.view.View.{View};
ghost use Rattle.serve_turns.specs.shared_book.Turns.{rejoined, with_made};
ghost use Rattle.serve_turns.specs.shared_book.Words.{lasting, view_of, IsSameSeat, IsSeatAt, IsSeatOf};
ghost use Rattle.serve_turns.specs.link_serving.Passage.{IsLinkAt, IsNewLink, Passage, ServesOn};
ghost use Rattle.serve_turns.specs.link_serving.Serving.{IsNewSeat, Leaves, Link, LinksServed};

use crate::shared_book::{Book, BookSeat, SharedBook};
use base_outside::Link;
use std::sync::Wait;

/// What is done with each link, by a seat of a book.
pub trait Service<B: Book>: Sync {
    type End: Drop + Send;

    /// The number of the link, what passed over it, what the seat knew, how it ended, and what the seat knows then.
    ghost serves: { Self → ℕ → Passage → View B B.Event B.Reply → Self.End → View B B.Event B.Reply → Type 0 };

    /// Behind which ends no further link is to be accepted.
    ghost stops: { Self → Self.End → Bool };

    /// Serves one link. Links are counted from 1. One that is served briefly is ended as soon as it was taken in.
    fn serve<W: Wait, L: Link>(
        &self,
        rt: &W,
        link: &mut L,
        book: &SharedBook<B>,
        seat: &mut BookSeat<B>,
        number: u64,
        briefly: bool,
    ) -> Self::End
        requires own { IsSeatOf book.now seat.old }
        ensures same { IsSameSeat seat.old seat.new }
        ensures serves { ServesOn L.told L.given L.left L.written L.faults L.ended (serves self.now) number
            (view_of seat.old) link.old result
            (view_of seat.new) link.new };

    /// Lets a link go that the book hears nothing of, whatever its number, where it can't be served.
    fn turn_away<L: Link>(&self, link: &mut L) -> Self::End
        ensures { (number : ℕ) (view : View B B.Event B.Reply)
            → ServesOn L.told L.given L.left L.written L.faults L.ended (serves self.now) number view link.old result view link.new };

    /// Whether no further link is to be accepted behind one that ended so.
    fn halts(&self, end: &Self::End) -> bool
        ensures { result ≡ stops self.now end.now };
}

/// What is left of links that were served: the seat that has taken in theirs, and how each ended. Links stand in the order in which they
/// were accepted.
#[derive(Drop)]
pub struct Roll<B: Book, X> {
    pub seat: BookSeat<B>,
    pub ends: Vec<Option<X>>,
}

/// Notes how the link at a place ended, where the list has that place.
fn put_end<X: Drop>(ends: &mut Vec<Option<X>>, place: usize, end: X)
    ensures inside { place < length ends.old.items → ends.new.items ≡ set ends.old.items place (Some end) }
    ensures past { length ends.old.items ≤ place → ends.new.items ≡ ends.old.items }
    ensures count { length ends.new.items ≡ length ends.old.items }
{
    if place < ends.len() {
        ends[place] = Some(end);
    }
}

/// Takes in what a served link left: its seat has ended, with its number and its entries, its history is kept, and its end stands at its
/// place. True where no further link is to be accepted behind it.
pub fn entered<B: Book, S: Service<B>, L: Link>(
    book: &SharedBook<B>,
    service: &S,
    roll: &mut Roll<B, S::End>,
    place: usize,
    end: S::End,
    seat: BookSeat<B>,
) -> bool
    requires own { IsSeatOf book.now roll.old.seat × IsSeatOf book.now seat }
    ensures same { IsSeatAt roll.old.seat roll.new.seat }
    ensures served { (from : View B B.Event B.Reply) (link link' : L) → IsNewSeat (view_of roll.old.seat).opening from
        → lasting (view_of seat) ≡ lasting from → IsNewLink L.told L.given L.left L.written L.faults L.ended link
        → ServesOn L.told L.given L.left L.written L.faults L.ended (S.serves service.now) (place + 1) from link end (view_of seat) link'
        → (before others : ℕ) (sent : List (List ℕ)) (running rest : List (Link L)) (count : ℕ)
        → Leaves (place, (view_of seat).number, link) running rest
        → LinksServed L.told L.given L.left L.written L.faults L.ended L.number
        (S.serves service.now) before others sent running count roll.old.ends.items
        (view_of roll.old.seat)
        → LinksServed L.told L.given L.left L.written L.faults L.ended L.number
        (S.serves service.now) before others sent rest count roll.new.ends.items
        (view_of roll.new.seat) }
    ensures rejoins { view_of roll.new.seat ≡ rejoined (view_of roll.old.seat) (view_of seat) }
    ensures halts { result ≡ S.stops service.now end }
    ensures told { place < length roll.old.ends.items → get_or roll.new.ends.items place None ≡ Some end }
    ensures others { (at : ℕ) → (at ≡ place → ⊥) → get_or roll.new.ends.items at None ≡ get_or roll.old.ends.items at None }
    ensures count { length roll.new.ends.items ≡ length roll.old.ends.items }
{
    let halts = service.halts(&end);
    book.rejoin(&mut roll.seat, seat);
    put_end(&mut roll.ends, place, end);
    halts
}

/// Serves a link briefly on this thread, by a seat of its own. `place` is the link's place among those that were accepted, from 0. True
/// where no further link is to be accepted behind it.
pub fn serve_briefly<W: Wait, L: Link, B: Book, S: Service<B>>(
    rt: &W,
    book: &SharedBook<B>,
    service: &S,
    roll: &mut Roll<B, S::End>,
    link: &mut L,
    place: usize,
) -> bool
    requires own { IsSeatOf book.now roll.old.seat }
    requires few { place + 1 < 2 ^ 64 }
    requires fresh { IsNewLink L.told L.given L.left L.written L.faults L.ended link.old }
    ensures same { IsSeatAt roll.old.seat roll.new.seat }
    ensures opening { (view_of roll.new.seat).opening ≡ (view_of roll.old.seat).opening }
    ensures served { (before others : ℕ) (sent : List (List ℕ)) (running : List (Link L))
        → IsLinkAt L.told L.number L.left before others sent place link.old
        → LinksServed L.told L.given L.left L.written L.faults L.ended L.number
        (S.serves service.now) before others sent running place roll.old.ends.items
        (view_of roll.old.seat)
        → LinksServed L.told L.given L.left L.written L.faults L.ended L.number (S.serves service.now) before others sent running
        (place + 1) roll.new.ends.items
        (view_of roll.new.seat) }
    ensures rejoins { (number : ℕ) × (ended : View B B.Event B.Reply)
        × (view_of roll.new.seat ≡ rejoined (with_made number (view_of roll.old.seat)) ended) }
    ensures told { (end : S.End) × (result ≡ S.stops service.now end)
        × (place < length roll.old.ends.items → get_or roll.new.ends.items place None ≡ Some end) }
    ensures others { (at : ℕ) → (at ≡ place → ⊥) → get_or roll.new.ends.items at None ≡ get_or roll.old.ends.items at None }
    ensures count { length roll.new.ends.items ≡ length roll.old.ends.items }
{
    let mut seat = book.seat(rt, &mut roll.seat);
    let end = service.serve(rt, link, book, &mut seat, place as u64 + 1, true);
    entered::<B, S, L>(book, service, roll, place, end, seat)
}
