//! A thread that serves one link.
ghost use Rattle.std.specs.Prelude.{◌≡◌, ◌+◌, ◌<◌, ◌^◌, ℕ, List, None, Some, length, get_or, IfOk, IfErr};
ghost use Rattle.serve_turns.specs.shared_book.Words.{lasting, view_of, AreOfOneBook, IsSeatAt, IsSeatOf};
ghost use Rattle.serve_turns.specs.link_serving.Passage.{IsNewLink, ServesOn};
ghost use Rattle.serve_turns.specs.link_serving.Serving.{IsNewSeat, Leaves, Link, LinksServed};

use crate::link_serving::{Roll, Service, entered};
use crate::link_threads::ended_list::EndedList;
use crate::shared_book::{Book, BookSeat, SharedBook};
use base_outside::Link;
use std::snapshot::Snapshot;
use std::sync::Wait;
use std::thread::{Promise, PromisedHandle, Scope, SpawnError, Threads};

/// What a thread promises that serves a link, which was new: how this very link ended, as the service says of what passed over it, and its
/// seat, which is of the same book, took in no other seat and made none.
#[derive(Drop)]
pub(crate) struct ServesLink<B: Book, S: Service<B>, L: Link> {
    service: Snapshot<S>,
    seat: Snapshot<BookSeat<B>>,
    place: usize,
    link: Snapshot<L>,
}

impl<B: Book, S: Service<B>, L: Link> Promise<(S::End, BookSeat<B>)> for ServesLink<B, S, L> {
    ghost use Rattle.std.specs.Prelude.{◌+◌};
    ghost use Rattle.serve_turns.specs.link_serving.Passage.{IsNewLink, ServesOn};
    ghost use Rattle.serve_turns.specs.shared_book.Words.{lasting, view_of, AreOfOneBook};

    ghost kept_by = { λ p r. AreOfOneBook p.seat.value r.1 × (lasting (view_of r.1) ≡ lasting (view_of p.seat.value))
        × IsNewLink L.told L.given L.left L.written L.faults L.ended p.link.value
        × ((link' : L) × ServesOn L.told L.given L.left L.written L.faults L.ended (S.serves p.service.value) (p.place + 1)
        (view_of p.seat.value)
        p.link.value r.0 (view_of r.1) link') };
}

/// Serves a link that it owns, and notes that it has ended. One that was turned away is let go.
fn served<B: Book, S: Service<B>, W: Wait, L: Link + Drop>(
    rt: &W,
    service: &S,
    mut link: L,
    book: &SharedBook<B>,
    mut seat: BookSeat<B>,
    place: usize,
    ended: &EndedList,
) -> (S::End, BookSeat<B>)
    requires own { IsSeatOf book.now seat }
    requires few { place + 1 < 2 ^ 64 }
    ensures own { AreOfOneBook seat result.1 }
    ensures lasts { lasting (view_of result.1) ≡ lasting (view_of seat) }
    ensures serves { (link' : L) × ServesOn L.told L.given L.left L.written L.faults L.ended (S.serves service.now) (place + 1)
        (view_of seat) link
        result.0 (view_of result.1) link' }
{
    let turned_away = ended.is_turned_away(rt, place);
    if turned_away {
        let end = service.turn_away(&mut link);
        return (end, seat);
    }
    let end = service.serve(rt, &mut link, book, &mut seat, place as u64 + 1, false);
    // Before the link is let go, so that a peer that connects anew then finds this thread out of the count.
    ended.note(rt, place, service.halts(&end));
    drop(link);
    (end, seat)
}

/// A thread that serves the link at a place.
#[derive(Drop)]
pub(crate) struct Running<B: Book, S: Service<B>, L: Link> {
    pub place: usize,
    pub handle: PromisedHandle<(S::End, BookSeat<B>), ServesLink<B, S, L>>,
    ghost placed: { handle.promise.place ≡ place },
}

/// Begins a thread for a link. Where none is to be had the link is served here, or turned away where links aren't counted.
pub(crate) fn begun<'s, E, W, L, B, S>(
    rt: &'s W,
    scope: &Scope<'s, E>,
    service: &'s S,
    link: L,
    book: &'s SharedBook<B>,
    seat: BookSeat<B>,
    place: usize,
    ended: &'s EndedList,
) -> Result<Running<B, S, L>, (S::End, BookSeat<B>)>
where
    W: Wait + Threads + Sync + 's,
    L: Link + Drop + Send + 's,
    B: Book + Drop + Send + 's,
    S: Service<B> + 's,
    S::End: 's,
    B::Event: Send + 's,
    B::Reply: Send + 's,
    requires own { IsSeatOf book.now seat }
    requires few { place + 1 < 2 ^ 64 }
    requires fresh { IsNewLink L.told L.given L.left L.written L.faults L.ended link }
    ensures runs { IfOk result (λ r. IsSeatOf book.now r.handle.promise.seat.value
        × (r.handle.promise.service.value ≡ service.now)) }
    ensures place { IfOk result (λ r. r.place ≡ place) }
    ensures seat { IfOk result (λ r. view_of r.handle.promise.seat.value ≡ view_of seat) }
    ensures link { IfOk result (λ r. r.handle.promise.link.value ≡ link) }
    ensures done { IfErr result (λ d. IsSeatOf book.now d.1 × (lasting (view_of d.1) ≡ lasting (view_of seat))
        × ((link' : L) × ServesOn L.told L.given L.left L.written L.faults L.ended (S.serves service.now) (place + 1)
        (view_of seat) link d.0
        (view_of d.1) link')) }
{
    let promise = ServesLink {
        service: Snapshot::of(service),
        seat: Snapshot::of(&seat),
        place,
        link: Snapshot::of(&link),
    };
    let child = scope.spawn_with(
        promise,
        move || -> (S::End, BookSeat<B>)
            requires { IsSeatOf book.now seat × (place + 1 < 2 ^ 64) × IsNewLink L.told L.given L.left L.written L.faults L.ended link }
            ensures { AreOfOneBook seat result.1 × (lasting (view_of result.1) ≡ lasting (view_of seat))
                × IsNewLink L.told L.given L.left L.written L.faults L.ended link
                × ((link' : L) × ServesOn L.told L.given L.left L.written L.faults L.ended (S.serves service.entry.now) (place + 1)
                (view_of seat)
                link result.0 (view_of result.1) link') }
        { served(rt, service, link, book, seat, place, ended) },
    );
    match child {
        Ok(handle) => Ok(Running { place, handle }),
        Err(SpawnError { value: job }) => {
            // What the link needs is the job's own, so the job itself looks whether it is turned away.
            ended.lack_thread(rt, place);
            Err(job())
        }
    }
}

/// Waits for the end of a thread, and takes in what it left. True where no further link is to be accepted behind it.
pub(crate) fn finished<B: Book, S: Service<B>, L: Link, R: Threads>(
    rt: &R,
    book: &SharedBook<B>,
    service: &S,
    roll: &mut Roll<B, S::End>,
    child: Running<B, S, L>,
) -> bool
    requires own { IsSeatOf book.now roll.old.seat }
    requires runs { IsSeatOf book.now child.handle.promise.seat.value
        × (child.handle.promise.service.value ≡ service.now)
        × IsNewSeat (view_of roll.old.seat).opening (view_of child.handle.promise.seat.value) }
    ensures same { IsSeatAt roll.old.seat roll.new.seat }
    ensures served { (before others : ℕ) (sent : List (List ℕ)) (running rest : List (Link L)) (count : ℕ)
        → Leaves (child.place, (view_of child.handle.promise.seat.value).number, child.handle.promise.link.value) running rest
        → LinksServed L.told L.given L.left L.written L.faults L.ended L.number
        (S.serves service.now) before others sent running count roll.old.ends.items
        (view_of roll.old.seat)
        → LinksServed L.told L.given L.left L.written L.faults L.ended L.number
        (S.serves service.now) before others sent rest count roll.new.ends.items
        (view_of roll.new.seat) }
    ensures told { child.place < length roll.old.ends.items
        → (end : S.End) × (get_or roll.new.ends.items child.place None ≡ Some end) }
    ensures others { (at : ℕ) → (at ≡ child.place → ⊥) → get_or roll.new.ends.items at None ≡ get_or roll.old.ends.items at None }
    ensures opening { (view_of roll.new.seat).opening ≡ (view_of roll.old.seat).opening }
    ensures count { length roll.new.ends.items ≡ length roll.old.ends.items }
{
    let Running { place, handle } = child;
    let (end, seat) = handle.join(rt);
    entered::<B, S, L>(book, service, roll, place, end, seat)
}
