//! The channels of a client, from its first operation to its last outcome.
ghost use Rattle.std.specs.Prelude.{◌≡◌, ℕ, ◌+◌, ◌<◌, ◌^◌, [], ◌∷◌, length, map, reverse, vec_len, IfOk, OnOk};
ghost use Rattle.client_ends.specs.dialog_requests.Dialogs.{CanOffer};
ghost use Rattle.serve_turns.specs.shared_book.Numbers.{numbers_in};
ghost use Rattle.serve_turns.specs.shared_book.Turns.{first_view};
ghost use Rattle.serve_turns.specs.shared_book.Words.{lasting, view_of, AreOfOneBook, IsSameSeat, IsSeatOf};
ghost use Rattle.client_book.specs.Steps.{IsNew};
ghost use Rattle.client_channels.specs.channel_threads.Nonces.{AreChannels, HasWorked};
ghost use Rattle.client_channels.specs.channel_threads.Running.{ChannelsRan, EndsAs, HasRun, events_of, salt_of};
ghost use Rattle.client_channels.specs.channel_threads.Running.{submits_from};
ghost use Rattle.client_channels.specs.channel_threads.Seating.{EachAt, IsAlone, KeepsOwn, seat_told};
ghost use Rattle.client_channels.specs.channel_turns.Rounds.{GoesRound, been};
ghost use Rattle.client_channels.specs.declared.channel_turns.shared_client.ClientTurns.{ClientTurns as BookHeld};
ghost use denote.Param.Send.{IsSend, IsSync};

use crate::channel_turns::{ChannelWorked, ClientTurns, Gate, News, Outside, Worked, ask, work};
use crate::draws::{OF_THE_CLIENT, draw_8};
use base_outside::{Address, Link, Net};
use client_book::{ClientBook, Turn};
use client_ends::ClientConfig;
use client_events::Client;
use client_values::{OpKind, Why};
use serve_turns::{BookSeat, SharedBook};
use std::alloc::{AllocError, Global};
use std::sync::{Mutex, Wait};
use std::thread::{self, Threads};

/// Operations are counted in 32 bits.
const MOST_OPERATIONS: usize = 1 << 32;

/// What is left of channels that ran: the net, and the client, of which every operation is settled, where memory didn't run out.
#[derive(Drop)]
pub struct Ran<N> {
    pub net: N,
    pub client: Result<Client, AllocError>,
}

/// A channel's seat, and its number. The seat is a parameter, so that its type is sent to threads as it is.
#[derive(Drop)]
struct Job<S> {
    seat: S,
    channel: u8,
}

type ChannelJob = Job<BookSeat<ClientTurns>>;

/// The random half of the client's CreateGuids.
fn salt_for(seed: &[u8; 32]) -> u64
    ensures { result ≡ salt_of seed.now }
{
    u64::from_le_bytes(draw_8(seed, OF_THE_CLIENT, 0))
}

/// Operations are submitted in order, and counted from 1.
fn submit_all<W: Wait>(
    rt: &W,
    book: &SharedBook<ClientTurns>,
    seat: &mut BookSeat<ClientTurns>,
    mut ops: Vec<OpKind>,
)
    requires own { IsSeatOf book.now seat.old }
    requires few { vec_len ops < 2 ^ 32 }
    requires none { (view_of seat.old).own ≡ [] }
    ensures same { IsSameSeat seat.old seat.new }
    ensures submits { events_of (view_of seat.new).own ≡ submits_from 1 ops.items }
{
    // So that each is taken from the end.
    ops.reverse();
    let mut number: u32 = 0;
    while let Some(kind) = ops.pop() {
        number += 1;
        ask(rt, book, seat, Turn::Submit { number, kind });
    }
}

/// A seat for each channel.
fn jobs_of<W: Wait>(
    rt: &W,
    alloc: Global,
    book: &SharedBook<ClientTurns>,
    seat: &mut BookSeat<ClientTurns>,
    channels: u8,
) -> Result<Vec<ChannelJob>, AllocError>
    requires own { IsSeatOf book.now seat.old }
    requires none { (view_of seat.old).made ≡ [] }
    ensures own { IsSeatOf book.now seat.new }
    ensures kept { KeepsOwn (view_of seat.old) (view_of seat.new) × ((view_of seat.new).ended ≡ (view_of seat.old).ended) }
    ensures count { IfOk result (λ v. length v.items ≡ channels) }
    ensures jobs { IfOk result (λ v. EachAt (λ k j. IsSeatOf book.now j.seat × (j.channel ≡ k) × IsAlone (view_of j.seat)
        × ((view_of j.seat).own ≡ [])) v.items) }
    ensures made { IfOk result (λ v. (view_of seat.new).made ≡ reverse (map (λ j. (view_of j.seat).number) v.items)) }
{
    let mut jobs = Vec::with_capacity(alloc, channels as usize)?;
    for channel in 0..channels {
        let theirs = book.seat(rt, seat);
        jobs.push(Job {
            seat: theirs,
            channel,
        })?;
    }
    Ok(jobs)
}

/// The channels behind the first run, each on a thread of its own where one is to be had, until each has ended.
fn work_others<W, N, G>(
    rt: &W,
    outside: &Outside<N>,
    config: &ClientConfig,
    gate: &G,
    book: &SharedBook<ClientTurns>,
    jobs: Vec<ChannelJob>,
) -> Result<Vec<ChannelWorked<N::L>>, AllocError>
where
    W: Wait + Threads + Sync,
    N: Net + Drop + Send,
    G: Gate,
    requires own { EachAt (λ k j. IsSeatOf book.now j.seat × (j.channel ≡ k + 1) × IsAlone (view_of j.seat) × ((view_of j.seat).own ≡ []))
        jobs.items }
    requires offers { CanOffer config.now }
    ensures own { IfOk result (λ v. EachAt (λ k w. IsSeatOf book.now w.seat × IsAlone (view_of w.seat)) v.items) }
    ensures works { IfOk result (λ v. EachAt (λ k w. HasWorked N.L.told N.L.given N.L.left N.L.written N.L.faults N.L.ended
        (G.bars gate.now) config.now outside.now.seed
        N.faults (k + 1) (view_of w.seat).own) v.items) }
    ensures numbers { IfOk result (λ v. map (λ w. (view_of w.seat).number) v.items ≡ map (λ j. (view_of j.seat).number) jobs.items) }
{
    let given = thread::map_vec(
        rt,
        jobs,
        &|job: ChannelJob| -> ChannelWorked<N::L>
            requires { IsSeatOf book.now job.seat × CanOffer config.now }
            ensures own { AreOfOneBook job.seat result.seat }
            ensures lasts { lasting (view_of result.seat) ≡ lasting (view_of job.seat) }
            ensures works { (draws : ℕ) × GoesRound N.L.told N.L.given N.L.left N.L.written N.L.faults N.L.ended
                (G.bars gate.entry.now) config.entry.now
                outside.entry.now.seed job.channel N.faults (been (view_of job.seat).own 0) (been (view_of result.seat).own draws) }
        {
            let Job { seat, channel } = job;
            work(rt, outside, config, gate, book, seat, channel)
        },
    )?;
    Ok(given)
}

/// The first channel runs in this thread, and the others beside it, or behind it where no thread is to be had: they wait for the session
/// that it makes.
fn work_beside<W, N, G>(
    rt: &W,
    outside: &Outside<N>,
    config: &ClientConfig,
    gate: &G,
    book: &SharedBook<ClientTurns>,
    first: BookSeat<ClientTurns>,
    others: Vec<ChannelJob>,
) -> Result<Vec<ChannelWorked<N::L>>, AllocError>
where
    W: Wait + Threads + Sync,
    N: Net + Drop + Send,
    G: Gate,
    requires first { IsSeatOf book.now first × IsAlone (view_of first) × ((view_of first).own ≡ []) }
    requires others { EachAt (λ k j. IsSeatOf book.now j.seat × (j.channel ≡ k + 1) × IsAlone (view_of j.seat)
        × ((view_of j.seat).own ≡ [])) others.items }
    requires offers { CanOffer config.now }
    ensures own { IfOk result (λ v. EachAt (λ k w. IsSeatOf book.now w.seat × IsAlone (view_of w.seat)) v.items) }
    ensures works { IfOk result (λ v. EachAt (λ k w. HasWorked N.L.told N.L.given N.L.left N.L.written N.L.faults N.L.ended
        (G.bars gate.now) config.now outside.now.seed
        N.faults k (view_of w.seat).own) v.items) }
    ensures numbers { IfOk result (λ v. map (λ w. (view_of w.seat).number) v.items
        ≡ (view_of first).number ∷ map (λ j. (view_of j.seat).number) others.items) }
{
    let (worked, mine) = thread::join(
        rt,
        move || -> Result<Vec<ChannelWorked<N::L>>, AllocError>
            requires { IsSync W.row × IsSend N.row × CanOffer config.now
                × EachAt (λ k j. IsSeatOf book.now j.seat × (j.channel ≡ k + 1) × IsAlone (view_of j.seat) × ((view_of j.seat).own ≡ []))
                others.items }
            ensures own { IfOk result (λ v. EachAt (λ k w. IsSeatOf book.entry.now w.seat × IsAlone (view_of w.seat)) v.items) }
            ensures works { IfOk result (λ v. EachAt (λ k w. HasWorked N.L.told N.L.given N.L.left N.L.written N.L.faults N.L.ended
                (G.bars gate.entry.now) config.entry.now outside.entry.now.seed
                N.faults (k + 1) (view_of w.seat).own) v.items) }
            ensures numbers { IfOk result (λ v. map (λ w. (view_of w.seat).number) v.items
                ≡ map (λ j. (view_of j.seat).number) others.items) }
        { work_others(rt, outside, config, gate, book, others) },
        move || -> ChannelWorked<N::L>
            requires { IsSeatOf book.now first × CanOffer config.now }
            ensures own { AreOfOneBook first result.seat }
            ensures lasts { lasting (view_of result.seat) ≡ lasting (view_of first) }
            ensures works { (draws : ℕ) × GoesRound N.L.told N.L.given N.L.left N.L.written N.L.faults N.L.ended
                (G.bars gate.entry.now) config.entry.now
                outside.entry.now.seed 0 N.faults (been (view_of first).own 0) (been (view_of result.seat).own draws) }
        { work(rt, outside, config, gate, book, first, 0) },
    );
    let mut all = worked?;
    all.insert(0, mine)?;
    Ok(all)
}

/// Each channel runs until it has ended.
fn work_all<W, N, G>(
    rt: &W,
    outside: &Outside<N>,
    config: &ClientConfig,
    gate: &G,
    book: &SharedBook<ClientTurns>,
    mut jobs: Vec<ChannelJob>,
) -> Result<Vec<ChannelWorked<N::L>>, AllocError>
where
    W: Wait + Threads + Sync,
    N: Net + Drop + Send,
    G: Gate,
    requires own { EachAt (λ k j. IsSeatOf book.now j.seat × (j.channel ≡ k) × IsAlone (view_of j.seat) × ((view_of j.seat).own ≡ []))
        jobs.items }
    requires offers { CanOffer config.now }
    ensures own { IfOk result (λ v. EachAt (λ k w. IsSeatOf book.now w.seat × IsAlone (view_of w.seat)) v.items) }
    ensures works { IfOk result (λ v. EachAt (λ k w. HasWorked N.L.told N.L.given N.L.left N.L.written N.L.faults N.L.ended
        (G.bars gate.now) config.now outside.now.seed
        N.faults k (view_of w.seat).own) v.items) }
    ensures numbers { IfOk result (λ v. map (λ w. (view_of w.seat).number) v.items ≡ map (λ j. (view_of j.seat).number) jobs.items) }
{
    let none = jobs.is_empty();
    if none {
        return Ok(Vec::new(outside.alloc));
    }
    let Job { seat, channel: _ } = jobs.remove(0);
    work_beside(rt, outside, config, gate, book, seat, jobs)
}

/// The seats that have ended are taken in. The links end only then, so that no binding finds its session gone because another channel was
/// quicker.
fn rejoin_all<L: Link + Drop>(
    book: &SharedBook<ClientTurns>,
    seat: &mut BookSeat<ClientTurns>,
    alloc: Global,
    mut worked: Vec<ChannelWorked<L>>,
) -> Result<(), AllocError>
    requires own { IsSeatOf book.now seat.old }
    requires all { EachAt (λ k w. IsSeatOf book.now w.seat × IsAlone (view_of w.seat)) worked.items }
    requires none { (view_of seat.old).ended ≡ [] }
    ensures own { IsSeatOf book.now seat.new }
    ensures kept { KeepsOwn (view_of seat.old) (view_of seat.new) × ((view_of seat.new).made ≡ (view_of seat.old).made) }
    ensures ended { OnOk result ((view_of seat.new).ended ≡ reverse (map (λ w. seat_told (view_of w.seat)) worked.items)) }
{
    let mut links = Vec::with_capacity(alloc, worked.len())?;
    while let Some(each) = worked.pop() {
        let Worked { seat: ended, link } = each;
        book.rejoin(seat, ended);
        links.push(link)?;
    }
    Ok(())
}

fn run_all<W, N, G>(
    rt: &W,
    outside: &Outside<N>,
    config: &ClientConfig,
    gate: &G,
    book: &SharedBook<ClientTurns>,
    seat: &mut BookSeat<ClientTurns>,
    channels: u8,
) -> Result<(), AllocError>
where
    W: Wait + Threads + Sync,
    N: Net + Drop + Send,
    G: Gate,
    requires own { IsSeatOf book.now seat.old }
    requires offers { CanOffer config.now }
    requires alone { IsAlone (view_of seat.old) }
    ensures own { IsSeatOf book.now seat.new }
    ensures kept { KeepsOwn (view_of seat.old) (view_of seat.new) }
    ensures channels { OnOk result (AreChannels N.L.told N.L.given N.L.left N.L.written N.L.faults N.L.ended
        (G.bars gate.now) config.now outside.now.seed N.faults
        channels (view_of seat.new).ended) }
    ensures whole { OnOk result ((view_of seat.new).made ≡ numbers_in (view_of seat.new).ended) }
{
    let jobs = jobs_of(rt, outside.alloc, book, seat, channels)?;
    let worked = work_all(rt, outside, config, gate, book, jobs)?;
    rejoin_all(book, seat, outside.alloc, worked)
}

/// The client behind its last event.
fn ended(mut book: ClientBook) -> Result<Client, AllocError>
    ensures { IfOk result (λ client. EndsAs book client) }
{
    let stopped = book.stopped;
    if stopped {
        return Err(AllocError);
    }
    let settled = book.client.is_settled();
    if settled {
        return Ok(book.client.end(Why::Ended));
    }
    Err(AllocError)
}

/// The book is closed at the seat's turn.
fn closed<W: Wait>(
    rt: &W,
    book: SharedBook<ClientTurns>,
    seat: BookSeat<ClientTurns>,
) -> Result<Client, AllocError>
    requires own { IsSeatOf book seat }
    ensures { IfOk result (λ client. HasRun (view_of seat) client) }
{
    let ClientTurns { book } = book.close(rt, seat);
    ended(book)
}

fn run_book<W, N, G>(
    rt: &W,
    outside: &Outside<N>,
    config: &ClientConfig,
    gate: &G,
    channels: u8,
    ops: Vec<OpKind>,
    book: SharedBook<ClientTurns>,
    mut seat: BookSeat<ClientTurns>,
) -> Result<Client, AllocError>
where
    W: Wait + Threads + Sync,
    N: Net + Drop + Send,
    G: Gate,
    requires own { IsSeatOf book seat }
    requires offers { CanOffer config.now }
    requires few { vec_len ops < 2 ^ 32 }
    requires first { (first : BookHeld) × IsNew (salt_of outside.now.seed) first.book × (view_of seat ≡ first_view first) }
    ensures { IfOk result (λ client. ChannelsRan N.L.told N.L.given N.L.left N.L.written N.L.faults N.L.ended
        (G.bars gate.now) config.now outside.now.seed N.faults
        channels ops.items client) }
{
    submit_all(rt, &book, &mut seat, ops);
    match run_all(rt, outside, config, gate, &book, &mut seat, channels) {
        Ok(()) => closed(rt, book, seat),
        Err(why) => Err(why),
    }
}

/// A client without operations.
fn first_book<N: Net>(outside: &Outside<N>) -> ClientTurns
    ensures { IsNew (salt_of outside.now.seed) result.book }
{
    ClientTurns {
        book: ClientBook::new(outside.alloc, salt_for(&outside.seed)),
    }
}

fn run_new<W, N, G>(
    rt: &W,
    outside: &Outside<N>,
    config: &ClientConfig,
    gate: &G,
    channels: u8,
    ops: Vec<OpKind>,
) -> Result<Client, AllocError>
where
    W: Wait + Threads + Sync,
    N: Net + Drop + Send,
    G: Gate,
    requires offers { CanOffer config.now }
    requires few { vec_len ops < 2 ^ 32 }
    ensures { IfOk result (λ client. ChannelsRan N.L.told N.L.given N.L.left N.L.written N.L.faults N.L.ended
        (G.bars gate.now) config.now outside.now.seed N.faults
        channels ops.items client) }
{
    let first = first_book(outside);
    match SharedBook::new(outside.alloc, first) {
        Ok((book, seat)) => run_book(rt, outside, config, gate, channels, ops, book, seat),
        Err(why) => Err(why),
    }
}

fn run_few<W, N, G>(
    rt: &W,
    outside: &Outside<N>,
    config: &ClientConfig,
    gate: &G,
    channels: u8,
    ops: Vec<OpKind>,
) -> Result<Client, AllocError>
where
    W: Wait + Threads + Sync,
    N: Net + Drop + Send,
    G: Gate,
    requires offers { CanOffer config.now }
    ensures { IfOk result (λ client. ChannelsRan N.L.told N.L.given N.L.left N.L.written N.L.faults N.L.ended
        (G.bars gate.now) config.now outside.now.seed N.faults
        channels ops.items client) }
{
    let few = ops.len() < MOST_OPERATIONS;
    if few {
        return run_new(rt, outside, config, gate, channels, ops);
    }
    Err(AllocError)
}

/// Channels are counted in 8 bits.
fn run_on<W, N, G>(
    rt: &W,
    outside: &Outside<N>,
    config: &ClientConfig,
    gate: &G,
    channels: u32,
    ops: Vec<OpKind>,
) -> Result<Client, AllocError>
where
    W: Wait + Threads + Sync,
    N: Net + Drop + Send,
    G: Gate,
    requires offers { CanOffer config.now }
    ensures { IfOk result (λ client. ChannelsRan N.L.told N.L.given N.L.left N.L.written N.L.faults N.L.ended
        (G.bars gate.now) config.now outside.now.seed N.faults
        channels ops.items client) }
{
    match u8::try_from(channels) {
        Ok(channels) => run_few(rt, outside, config, gate, channels, ops),
        Err(_) => Err(AllocError),
    }
}

/// Runs a client's operations over so many channels, at most 255, to a server at an address. Channel 0 makes the session, and the others
/// are bound to it. Each failed connect is tried again at once, and eight in a row give up.
pub fn run_channels<W, N, G>(
    rt: &W,
    alloc: Global,
    net: N,
    to: Address,
    channels: u32,
    ops: Vec<OpKind>,
    config: &ClientConfig,
    seed: [u8; 32],
    gate: &G,
) -> Ran<N>
where
    W: Wait + Threads + Sync,
    N: Net + Drop + Send,
    G: Gate,
    requires offers { CanOffer config.now }
    ensures { IfOk result.client (λ client. ChannelsRan N.L.told N.L.given N.L.left N.L.written N.L.faults N.L.ended
        (G.bars gate.now) config.now seed N.faults
        channels ops.items client) }
{
    let outside = Outside {
        alloc,
        net: Mutex::new(net),
        to,
        seed,
        news: News::new(),
    };
    let client = run_on(rt, &outside, config, gate, channels, ops);
    let Outside {
        alloc: _,
        net,
        to: _,
        seed: _,
        news: _,
    } = outside;
    Ran {
        net: net.into_inner(),
        client,
    }
}
