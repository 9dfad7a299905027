//! Links that are accepted, each served on a thread of its own.
ghost use Rattle.std.specs.Prelude.{◌≡◌, ◌+◌, ◌<◌, ℕ, [], length, map};
ghost use Rattle.std.specs.List.{All};
ghost use Rattle.serve_turns.specs.shared_book.Words.{view_of, IsSeatOf};
ghost use Rattle.base_outside.specs.streams.Faults.{Rose};
ghost use Rattle.serve_turns.specs.link_serving.Serving.{AnyLinksServed, IsNewSeat, LinksServed};
ghost use Rattle.serve_turns.specs.link_threads.Accepted.{AreAccepted};
ghost use Rattle.serve_turns.specs.link_threads.Covering.{AreCovered, HaveEnds};
ghost use Rattle.serve_turns.specs.declared.link_threads.links.Halt.TheVariants as halts;

use crate::link_serving::{Roll, Service};
use crate::link_threads::crew::{Crew, begin, join_all, join_ended};
use crate::link_threads::ended_list::EndedList;
use crate::shared_book::{Book, SharedBook};
use base_outside::Net;
use std::alloc::Global;
use std::sync::Wait;
use std::thread::{self, Scope, Threads};

/// Why no further link was accepted.
#[derive(Clone, Copy, PartialEq, Eq, Debug)]
pub enum Halt {
    /// As many were accepted as were to be.
    Count,
    /// The net failed.
    NetFault,
    /// A link ended so that none is to be accepted behind it.
    Ended,
    /// There was no room for one more thread.
    Memory,
}

/// Links that were served: what is left of them, the net, and why no further one was accepted.
#[derive(Drop)]
pub struct Served<B: Book, X, N> {
    pub roll: Roll<B, X>,
    pub net: N,
    pub halt: Halt,
}

/// Accepts links and begins to serve each.
fn accept_each<'s, E, W, N, B, S>(
    rt: &'s W,
    scope: &Scope<'s, E>,
    net: &mut N,
    book: &'s SharedBook<B>,
    service: &'s S,
    crew: &mut Crew<B, S, N::L>,
    ended: &'s EndedList,
    count: usize,
) -> Halt
where
    W: Wait + Threads + Sync + 's,
    N: Net + Drop,
    N::L: 's,
    B: Book + Drop + Send + 's,
    S: Service<B> + 's,
    S::End: 's,
    B::Event: Send + 's,
    B::Reply: Send + 's,
    requires own { IsSeatOf book.now crew.old.roll.seat }
    requires served { AnyLinksServed N.L.told N.L.given N.L.left N.L.written N.L.faults N.L.ended N.L.number
        (S.serves service.now)
        (map (λ c. (c.place, (view_of c.handle.promise.seat.value).number, c.handle.promise.link.value)) crew.old.running.items)
        0 crew.old.roll.ends.items (view_of crew.old.roll.seat) }
    requires running { All (λ c. IsSeatOf book.now c.handle.promise.seat.value
        × (c.handle.promise.service.value ≡ service.now)
        × IsNewSeat (view_of crew.old.roll.seat).opening (view_of c.handle.promise.seat.value)) crew.old.running.items }
    ensures own { IsSeatOf book.now crew.new.roll.seat }
    ensures opening { (view_of crew.new.roll.seat).opening ≡ (view_of crew.old.roll.seat).opening }
    ensures served { (served : ℕ) × AreAccepted count served result (N.accepted net.old) (N.accepted net.new)
        × LinksServed N.L.told N.L.given N.L.left N.L.written N.L.faults N.L.ended N.L.number (S.serves service.now) (N.accepted net.old)
        (length (N.sent net.old)) (N.sent net.new)
        (map (λ c. (c.place, (view_of c.handle.promise.seat.value).number, c.handle.promise.link.value)) crew.new.running.items)
        served crew.new.roll.ends.items (view_of crew.new.roll.seat) }
    ensures running { All (λ c. IsSeatOf book.now c.handle.promise.seat.value
        × (c.handle.promise.service.value ≡ service.now)
        × IsNewSeat (view_of crew.old.roll.seat).opening (view_of c.handle.promise.seat.value)) crew.new.running.items }
    ensures count { length crew.new.roll.ends.items ≡ length crew.old.roll.ends.items }
    ensures covered { result ≡ halts.Count
        → AreCovered (λ c. c.place) count crew.new.roll.ends.items crew.new.running.items }
    ensures net { result ≡ halts.NetFault → Rose (N.faults net.old) (N.faults net.new) }
    ensures place { N.listens_at net.new ≡ N.listens_at net.old }
{
    for place in 0..count {
        let link = match net.accept() {
            Ok(link) => link,
            Err(_) => return Halt::NetFault,
        };
        // Looked at only here, since `accept` waits: one more peer is accepted and dropped.
        if ended.is_halted(rt) {
            return Halt::Ended;
        }
        // With each link, so that what ended threads leave doesn't add up while the server runs.
        join_ended(rt, book, service, crew, ended);
        match begin(rt, scope, book, service, crew, ended, link, place) {
            Ok(()) => {}
            Err(_) => return Halt::Memory,
        }
    }
    Halt::Count
}

/// Accepts so many links and waits until all are served, or were let go.
fn in_scope<'s, E, W, N, B, S>(
    rt: &'s W,
    scope: &Scope<'s, E>,
    mut net: N,
    book: &'s SharedBook<B>,
    service: &'s S,
    mut crew: Crew<B, S, N::L>,
    ended: &'s EndedList,
    count: usize,
) -> Served<B, S::End, N>
where
    W: Wait + Threads + Sync + 's,
    N: Net + Drop,
    N::L: 's,
    B: Book + Drop + Send + 's,
    S: Service<B> + 's,
    S::End: 's,
    B::Event: Send + 's,
    B::Reply: Send + 's,
    requires own { IsSeatOf book.now crew.roll.seat }
    requires served { AnyLinksServed N.L.told N.L.given N.L.left N.L.written N.L.faults N.L.ended N.L.number
        (S.serves service.now)
        (map (λ c. (c.place, (view_of c.handle.promise.seat.value).number, c.handle.promise.link.value)) crew.running.items)
        0 crew.roll.ends.items (view_of crew.roll.seat) }
    requires running { All (λ c. IsSeatOf book.now c.handle.promise.seat.value
        × (c.handle.promise.service.value ≡ service.now)
        × IsNewSeat (view_of crew.roll.seat).opening (view_of c.handle.promise.seat.value)) crew.running.items }
    ensures own { IsSeatOf book.now result.roll.seat }
    ensures opening { (view_of result.roll.seat).opening ≡ (view_of crew.roll.seat).opening }
    ensures served { (served : ℕ) × AreAccepted count served result.halt (N.accepted net) (N.accepted result.net)
        × LinksServed N.L.told N.L.given N.L.left N.L.written N.L.faults N.L.ended N.L.number (S.serves service.now) (N.accepted net)
        (length (N.sent net)) (N.sent result.net) [] served
        result.roll.ends.items (view_of result.roll.seat) }
    ensures count { length result.roll.ends.items ≡ length crew.roll.ends.items }
    ensures ends { result.halt ≡ halts.Count → HaveEnds count result.roll.ends.items }
    ensures net { result.halt ≡ halts.NetFault → Rose (N.faults net) (N.faults result.net) }
    ensures place { N.listens_at result.net ≡ N.listens_at net }
{
    let halt = accept_each(rt, scope, &mut net, book, service, &mut crew, ended, count);
    join_all(rt, book, service, &mut crew);
    let Crew { roll, running: _ } = crew;
    Served { roll, net, halt }
}

/// Accepts so many links, and serves each on a thread of its own. Where 256 threads run, a link is served here, briefly. A link for which
/// no thread is to be had is served here where the links are counted, so that each is served; else it is let go, so that a server that
/// accepts without end goes on accepting. It waits until all have ended. Links are counted from 1; how one ended stands at its place of
/// the roll, where the roll has that place.
pub fn serve_links<W, N, B, S>(
    rt: &W,
    alloc: Global,
    net: N,
    book: &SharedBook<B>,
    service: &S,
    roll: Roll<B, S::End>,
    count: usize,
    counted: bool,
) -> Served<B, S::End, N>
where
    W: Wait + Threads + Sync,
    N: Net + Drop,
    B: Book + Drop + Send,
    S: Service<B>,
    B::Event: Send,
    B::Reply: Send,
    requires own { IsSeatOf book.now roll.seat }
    requires served { AnyLinksServed N.L.told N.L.given N.L.left N.L.written N.L.faults N.L.ended N.L.number
        (S.serves service.now) [] 0 roll.ends.items (view_of roll.seat) }
    ensures own { IsSeatOf book.now result.roll.seat }
    ensures opening { (view_of result.roll.seat).opening ≡ (view_of roll.seat).opening }
    ensures served { (served : ℕ) × AreAccepted count served result.halt (N.accepted net) (N.accepted result.net)
        × LinksServed N.L.told N.L.given N.L.left N.L.written N.L.faults N.L.ended N.L.number (S.serves service.now) (N.accepted net)
        (length (N.sent net)) (N.sent result.net) [] served
        result.roll.ends.items (view_of result.roll.seat) }
    ensures count { length result.roll.ends.items ≡ length roll.ends.items }
    ensures ends { result.halt ≡ halts.Count → HaveEnds count result.roll.ends.items }
    ensures net { result.halt ≡ halts.NetFault → Rose (N.faults net) (N.faults result.net) }
    ensures place { N.listens_at result.net ≡ N.listens_at net }
{
    let ended = EndedList::new(alloc, counted);
    let notes = &ended;
    let crew = Crew {
        roll,
        running: Vec::new(alloc),
    };
    thread::scope(
        thread::scope_env(),
        rt,
        move |scope| -> Served<B, S::End, N>
            requires { IsSeatOf book.now crew.roll.seat
                × (AnyLinksServed N.L.told N.L.given N.L.left N.L.written N.L.faults N.L.ended N.L.number
                (S.serves service.now)
                (map (λ c. (c.place, (view_of c.handle.promise.seat.value).number, c.handle.promise.link.value)) crew.running.items)
                0 crew.roll.ends.items (view_of crew.roll.seat))
                × All (λ c. IsSeatOf book.now c.handle.promise.seat.value
                × (c.handle.promise.service.value ≡ service.now)
                × IsNewSeat (view_of crew.roll.seat).opening (view_of c.handle.promise.seat.value)) crew.running.items }
            ensures { IsSeatOf book.entry.now result.roll.seat
                × ((view_of result.roll.seat).opening ≡ (view_of crew.roll.seat).opening)
                × (length result.roll.ends.items ≡ length crew.roll.ends.items)
                × (result.halt ≡ halts.Count → HaveEnds count result.roll.ends.items)
                × ((served : ℕ) × AreAccepted count served result.halt (N.accepted net) (N.accepted result.net)
                × LinksServed N.L.told N.L.given N.L.left N.L.written N.L.faults N.L.ended N.L.number (S.serves service.entry.now)
                (N.accepted net) (length (N.sent net))
                (N.sent result.net) [] served
                result.roll.ends.items (view_of result.roll.seat))
                × (result.halt ≡ halts.NetFault → Rose (N.faults net) (N.faults result.net))
                × (N.listens_at result.net ≡ N.listens_at net) }
        { in_scope(rt, scope, net, book, service, crew, notes, count) },
    )
}
