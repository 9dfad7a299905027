//! The threads that run, and what is left of those that have ended.
ghost use Rattle.std.specs.Prelude.{◌≡◌, ◌+◌, ◌<◌, ◌^◌, ℕ, List, [], length, map, IfSome, OnErr, OnOk};
ghost use Rattle.std.specs.List.{All};
ghost use Rattle.serve_turns.specs.shared_book.Words.{view_of, IsSeatOf};
ghost use Rattle.serve_turns.specs.link_serving.Passage.{IsLinkAt, IsNewLink};
ghost use Rattle.serve_turns.specs.link_serving.Serving.{IsNewSeat, LinksServed};
ghost use Rattle.serve_turns.specs.link_threads.Covering.{AreCovered, HaveEnds};

use crate::link_serving::{Roll, Service, entered, serve_briefly};
use crate::link_threads::ended_list::EndedList;
use crate::link_threads::running::{Running, begun, finished};
use crate::shared_book::{Book, SharedBook};
use base_outside::Link;
use std::alloc::AllocError;
use std::sync::Wait;
use std::thread::{Scope, Threads};

/// How many threads may run: as many connections as the server takes. MS-SMB2 has no number.
const MOST: usize = 256;

/// Threads that serve links, and what is left of those that have ended.
#[derive(Drop)]
pub(crate) struct Crew<B: Book, S: Service<B>, L: Link> {
    pub roll: Roll<B, S::End>,
    pub running: Vec<Running<B, S, L>>,
}

/// Which of the running threads serves the link at a place, if one does.
fn found<B: Book, S: Service<B>, L: Link>(
    running: &[Running<B, S, L>],
    place: usize,
) -> Option<usize>
    ensures { IfSome result (λ at. at < length running.now) }
{
    for (at, child) in running.iter().enumerate() {
        if child.place == place {
            return Some(at);
        }
    }
    None
}

/// Waits for the thread that serves the link at a place, where it runs.
fn join_one<B: Book, S: Service<B>, L: Link, R: Threads>(
    rt: &R,
    book: &SharedBook<B>,
    service: &S,
    crew: &mut Crew<B, S, L>,
    place: usize,
)
    requires own { IsSeatOf book.now crew.old.roll.seat }
    requires running { All (λ c. IsSeatOf book.now c.handle.promise.seat.value
        × (c.handle.promise.service.value ≡ service.now)
        × IsNewSeat (view_of crew.old.roll.seat).opening (view_of c.handle.promise.seat.value)) crew.old.running.items }
    ensures own { IsSeatOf book.now crew.new.roll.seat }
    ensures opening { (view_of crew.new.roll.seat).opening ≡ (view_of crew.old.roll.seat).opening }
    ensures served { (before others : ℕ) (sent : List (List ℕ)) (n : ℕ)
        → LinksServed L.told L.given L.left L.written L.faults L.ended L.number (S.serves service.now) before others sent
        (map (λ c. (c.place, (view_of c.handle.promise.seat.value).number, c.handle.promise.link.value)) crew.old.running.items)
        n crew.old.roll.ends.items (view_of crew.old.roll.seat)
        → LinksServed L.told L.given L.left L.written L.faults L.ended L.number (S.serves service.now) before others sent
        (map (λ c. (c.place, (view_of c.handle.promise.seat.value).number, c.handle.promise.link.value)) crew.new.running.items)
        n crew.new.roll.ends.items (view_of crew.new.roll.seat) }
    ensures running { All (λ c. IsSeatOf book.now c.handle.promise.seat.value
        × (c.handle.promise.service.value ≡ service.now)
        × IsNewSeat (view_of crew.old.roll.seat).opening (view_of c.handle.promise.seat.value)) crew.new.running.items }
    ensures count { length crew.new.roll.ends.items ≡ length crew.old.roll.ends.items }
    ensures covered { (n : ℕ) → AreCovered (λ c. c.place) n crew.old.roll.ends.items crew.old.running.items
        → AreCovered (λ c. c.place) n crew.new.roll.ends.items crew.new.running.items }
{
    if let Some(at) = found(crew.running.as_slice(), place) {
        let child = crew.running.swap_remove(at);
        finished(rt, book, service, &mut crew.roll, child);
    }
}

/// Joins the threads that have noted their end.
pub(crate) fn join_ended<B: Book, S: Service<B>, L: Link, R: Threads + Wait>(
    rt: &R,
    book: &SharedBook<B>,
    service: &S,
    crew: &mut Crew<B, S, L>,
    ended: &EndedList,
)
    requires own { IsSeatOf book.now crew.old.roll.seat }
    requires running { All (λ c. IsSeatOf book.now c.handle.promise.seat.value
        × (c.handle.promise.service.value ≡ service.now)
        × IsNewSeat (view_of crew.old.roll.seat).opening (view_of c.handle.promise.seat.value)) crew.old.running.items }
    ensures own { IsSeatOf book.now crew.new.roll.seat }
    ensures opening { (view_of crew.new.roll.seat).opening ≡ (view_of crew.old.roll.seat).opening }
    ensures served { (before others : ℕ) (sent : List (List ℕ)) (n : ℕ)
        → LinksServed L.told L.given L.left L.written L.faults L.ended L.number (S.serves service.now) before others sent
        (map (λ c. (c.place, (view_of c.handle.promise.seat.value).number, c.handle.promise.link.value)) crew.old.running.items)
        n crew.old.roll.ends.items (view_of crew.old.roll.seat)
        → LinksServed L.told L.given L.left L.written L.faults L.ended L.number (S.serves service.now) before others sent
        (map (λ c. (c.place, (view_of c.handle.promise.seat.value).number, c.handle.promise.link.value)) crew.new.running.items)
        n crew.new.roll.ends.items (view_of crew.new.roll.seat) }
    ensures running { All (λ c. IsSeatOf book.now c.handle.promise.seat.value
        × (c.handle.promise.service.value ≡ service.now)
        × IsNewSeat (view_of crew.old.roll.seat).opening (view_of c.handle.promise.seat.value)) crew.new.running.items }
    ensures count { length crew.new.roll.ends.items ≡ length crew.old.roll.ends.items }
    ensures covered { (n : ℕ) → AreCovered (λ c. c.place) n crew.old.roll.ends.items crew.old.running.items
        → AreCovered (λ c. c.place) n crew.new.roll.ends.items crew.new.running.items }
{
    for _ in rt.forever() {
        let Some(place) = ended.next(rt) else {
            return;
        };
        join_one(rt, book, service, crew, place);
    }
    unreachable!()
}

/// Waits for all threads.
pub(crate) fn join_all<B: Book, S: Service<B>, L: Link, R: Threads>(
    rt: &R,
    book: &SharedBook<B>,
    service: &S,
    crew: &mut Crew<B, S, L>,
)
    requires own { IsSeatOf book.now crew.old.roll.seat }
    requires running { All (λ c. IsSeatOf book.now c.handle.promise.seat.value
        × (c.handle.promise.service.value ≡ service.now)
        × IsNewSeat (view_of crew.old.roll.seat).opening (view_of c.handle.promise.seat.value)) crew.old.running.items }
    ensures own { IsSeatOf book.now crew.new.roll.seat }
    ensures opening { (view_of crew.new.roll.seat).opening ≡ (view_of crew.old.roll.seat).opening }
    ensures served { (before others : ℕ) (sent : List (List ℕ)) (n : ℕ)
        → LinksServed L.told L.given L.left L.written L.faults L.ended L.number (S.serves service.now) before others sent
        (map (λ c. (c.place, (view_of c.handle.promise.seat.value).number, c.handle.promise.link.value)) crew.old.running.items)
        n crew.old.roll.ends.items (view_of crew.old.roll.seat)
        → LinksServed L.told L.given L.left L.written L.faults L.ended L.number
        (S.serves service.now) before others sent [] n crew.new.roll.ends.items (view_of crew.new.roll.seat) }
    ensures running { All (λ c. IsSeatOf book.now c.handle.promise.seat.value
        × (c.handle.promise.service.value ≡ service.now)
        × IsNewSeat (view_of crew.old.roll.seat).opening (view_of c.handle.promise.seat.value)) crew.new.running.items }
    ensures count { length crew.new.roll.ends.items ≡ length crew.old.roll.ends.items }
    ensures ends { (n : ℕ) → AreCovered (λ c. c.place) n crew.old.roll.ends.items crew.old.running.items
        → HaveEnds n crew.new.roll.ends.items }
{
    while let Some(child) = crew.running.pop() {
        finished(rt, book, service, &mut crew.roll, child);
    }
}

/// Begins to serve the link at a place, by a seat of its own. Where there is no room for one more thread the link is let go. Where as many
/// threads run as may, it is served briefly here: the server answers it as full, at no thread's cost.
pub(crate) fn begin<'s, E, W, L, B, S>(
    rt: &'s W,
    scope: &Scope<'s, E>,
    book: &'s SharedBook<B>,
    service: &'s S,
    crew: &mut Crew<B, S, L>,
    ended: &'s EndedList,
    mut link: L,
    place: usize,
) -> Result<(), AllocError>
where
    W: Wait + Threads + Sync + 's,
    L: Link + Drop + Send + 's,
    B: Book + Drop + Send + 's,
    S: Service<B> + 's,
    S::End: 's,
    B::Event: Send + 's,
    B::Reply: Send + 's,
    requires few { place + 1 < 2 ^ 64 }
    requires fresh { IsNewLink L.told L.given L.left L.written L.faults L.ended link }
    requires own { IsSeatOf book.now crew.old.roll.seat }
    requires running { All (λ c. IsSeatOf book.now c.handle.promise.seat.value
        × (c.handle.promise.service.value ≡ service.now)
        × IsNewSeat (view_of crew.old.roll.seat).opening (view_of c.handle.promise.seat.value)) crew.old.running.items }
    ensures own { IsSeatOf book.now crew.new.roll.seat }
    ensures opening { (view_of crew.new.roll.seat).opening ≡ (view_of crew.old.roll.seat).opening }
    ensures served { OnOk result ((before others : ℕ) (sent : List (List ℕ))
        → IsLinkAt L.told L.number L.left before others sent place link
        → LinksServed L.told L.given L.left L.written L.faults L.ended L.number (S.serves service.now) before others sent
        (map (λ c. (c.place, (view_of c.handle.promise.seat.value).number, c.handle.promise.link.value)) crew.old.running.items)
        place crew.old.roll.ends.items (view_of crew.old.roll.seat)
        → LinksServed L.told L.given L.left L.written L.faults L.ended L.number (S.serves service.now) before others sent
        (map (λ c. (c.place, (view_of c.handle.promise.seat.value).number, c.handle.promise.link.value)) crew.new.running.items)
        (place + 1) crew.new.roll.ends.items (view_of crew.new.roll.seat)) }
    ensures let_go { OnErr result ((before others : ℕ) (sent : List (List ℕ))
        → LinksServed L.told L.given L.left L.written L.faults L.ended L.number (S.serves service.now) before others sent
        (map (λ c. (c.place, (view_of c.handle.promise.seat.value).number, c.handle.promise.link.value)) crew.old.running.items)
        place crew.old.roll.ends.items (view_of crew.old.roll.seat)
        → LinksServed L.told L.given L.left L.written L.faults L.ended L.number (S.serves service.now) before others sent
        (map (λ c. (c.place, (view_of c.handle.promise.seat.value).number, c.handle.promise.link.value)) crew.new.running.items)
        place crew.new.roll.ends.items (view_of crew.new.roll.seat)) }
    ensures running { All (λ c. IsSeatOf book.now c.handle.promise.seat.value
        × (c.handle.promise.service.value ≡ service.now)
        × IsNewSeat (view_of crew.old.roll.seat).opening (view_of c.handle.promise.seat.value)) crew.new.running.items }
    ensures count { length crew.new.roll.ends.items ≡ length crew.old.roll.ends.items }
    ensures covered { OnOk result (AreCovered (λ c. c.place) place crew.old.roll.ends.items crew.old.running.items
        → AreCovered (λ c. c.place) (place + 1) crew.new.roll.ends.items crew.new.running.items) }
{
    let full = crew.running.len() >= MOST;
    if full {
        let halts = serve_briefly(rt, book, service, &mut crew.roll, &mut link, place);
        ended.note(rt, place, halts);
        return Ok(());
    }
    // Before the thread begins, since one without a handle could not be joined.
    crew.running.reserve(1)?;
    let seat = book.seat(rt, &mut crew.roll.seat);
    match begun(rt, scope, service, link, book, seat, place, ended) {
        Ok(child) => {
            crew.running.push(child)?;
            Ok(())
        }
        Err((end, seat)) => {
            entered::<B, S, L>(book, service, &mut crew.roll, place, end, seat);
            Ok(())
        }
    }
}
