//! A channel from its first connection to its end.
ghost use Rattle.std.specs.Prelude.{◌≡◌, ◌⊎◌, ◌<◌, ◌+◌, ℕ, [], List, Some, IfOk, OnErr, vec_len};
ghost use Rattle.client_ends.specs.dialog_requests.Dialogs.{CanOffer};
ghost use Rattle.serve_turns.specs.link_serving.Passage.{IsNewLink};
ghost use Rattle.serve_turns.specs.shared_book.Words.{lasting, view_of, AreOfOneBook, IsSameSeat, IsSeatOf};
ghost use Rattle.client_channels.specs.channel_turns.Asides.{TellsLack};
ghost use Rattle.client_channels.specs.channel_turns.Links.{Passes, on};
ghost use Rattle.client_channels.specs.channel_turns.Passing.{KeepsChannel, KeepsCourse};
ghost use Rattle.client_channels.specs.channel_turns.Rounds.{AsksOnce, GoesRound, NetFailed, Round, UsesLink, been};
ghost use Rattle.client_channels.specs.channel_turns.Sides.{Ends, Says, Talks};
ghost use Rattle.client_channels.specs.channel_turns.Turning.{Placed, TurnsOnce};
ghost use Rattle.client_book.specs.declared.turn.Told.{Told as ToldThen};
ghost use Rattle.client_book.specs.declared.turn.Turn.TheVariants as turns;

use crate::channel_turns::dialogs::{speak, talk};
use crate::channel_turns::lines::run_line;
use crate::channel_turns::outside::{Gate, Outside};
use crate::channel_turns::passing::{Course, PIECE, Parted, Wire, ask, is_stop, lack, tell};
use crate::channel_turns::shared_client::ClientTurns;
use crate::channel_turns::starting::{Aim, dialog_for, fresh_at, session_of};
use base_outside::{Failed, Link, Net};
use client_book::{Told, Turn};
use client_ends::{ClientConfig, Dialog};
use serve_turns::{BookSeat, SharedBook};
use std::alloc::{AllocError, Global};
use std::sync::Wait;
use wire_bytes::{Bytes, Deframer};

/// A dialog takes so many draws.
const DRAWS: u64 = 3;

/// What is left of a channel that has ended: its seat, and the link that is still open. The seat is a parameter, so that its type is sent
/// to threads as it is.
#[derive(Drop)]
pub(crate) struct Worked<S, L: Link> {
    pub seat: S,
    pub link: Option<L>,
}

pub(crate) type ChannelWorked<L> = Worked<BookSeat<ClientTurns>, L>;

/// How a channel goes on behind one attempt.
#[derive(Drop)]
enum Went<L: Link> {
    On,
    Ended(Option<L>),
}

/// A dialog whose NEGOTIATE is to go out, and the channel behind it, until the link is left.
fn run_dialog<W: Wait, N: Net, L: Link, G: Gate>(
    rt: &W,
    outside: &Outside<N>,
    gate: &G,
    book: &SharedBook<ClientTurns>,
    seat: &mut BookSeat<ClientTurns>,
    course: &mut Course,
    wire: &mut Wire<L>,
    aim: &Aim,
    dialog: Dialog,
    greeting: &Bytes,
) -> Parted
    requires own { IsSeatOf book.now seat.old }
    requires room { 0 < vec_len course.old.piece }
    ensures same { IsSameSeat seat.old seat.new }
    ensures kept { KeepsCourse course.old course.new }
    ensures runs { Passes L.told L.given L.left L.written L.faults L.ended (G.bars gate.now) aim.now course.old.channel
        (on (Says greeting.now (Talks dialog)) wire.old.stream wire.old.link (view_of seat.old).own)
        (on Ends wire.new.stream wire.new.link (view_of seat.new).own) }
{
    match speak(
        rt,
        outside,
        gate,
        book,
        seat,
        course.channel,
        wire,
        greeting,
    ) {
        Some(parted) => parted,
        None => talk_and_run(rt, outside, gate, book, seat, course, wire, aim, dialog),
    }
}

fn talk_and_run<W: Wait, N: Net, L: Link, G: Gate>(
    rt: &W,
    outside: &Outside<N>,
    gate: &G,
    book: &SharedBook<ClientTurns>,
    seat: &mut BookSeat<ClientTurns>,
    course: &mut Course,
    wire: &mut Wire<L>,
    aim: &Aim,
    dialog: Dialog,
) -> Parted
    requires own { IsSeatOf book.now seat.old }
    requires room { 0 < vec_len course.old.piece }
    ensures same { IsSameSeat seat.old seat.new }
    ensures kept { KeepsCourse course.old course.new }
    ensures runs { Passes L.told L.given L.left L.written L.faults L.ended (G.bars gate.now) aim.now course.old.channel
        (on (Talks dialog) wire.old.stream wire.old.link (view_of seat.old).own)
        (on Ends wire.new.stream wire.new.link (view_of seat.new).own) }
{
    match talk(rt, outside, gate, book, seat, course, wire, aim, dialog) {
        Err(parted) => parted,
        Ok(line) => {
            course.first = false;
            run_line(rt, outside, gate, book, seat, course, wire, line)
        }
    }
}

/// A dialog begins on a link with the next draws, and the channel goes on until the link is left.
fn run_fresh<W: Wait, N: Net, L: Link, G: Gate>(
    rt: &W,
    outside: &Outside<N>,
    config: &ClientConfig,
    gate: &G,
    book: &SharedBook<ClientTurns>,
    seat: &mut BookSeat<ClientTurns>,
    course: &mut Course,
    wire: &mut Wire<L>,
    aim: &Aim,
    draws: u64,
) -> Parted
    requires own { IsSeatOf book.now seat.old }
    requires room { 0 < vec_len course.old.piece }
    requires offers { CanOffer config.now }
    requires stream { wire.old.stream ≡ [] }
    requires next { draws ≡ course.old.draws + 3 }
    ensures same { IsSameSeat seat.old seat.new }
    ensures kept { KeepsChannel course.old course.new }
    ensures uses { UsesLink L.told L.given L.left L.written L.faults L.ended
        (G.bars gate.now) config.now outside.now.seed course.old.channel aim.now course.old.draws (view_of seat.old).own
        wire.old.link course.new.draws (view_of seat.new).own
        ⊎ TellsLack (view_of seat.old).own Ends (view_of seat.new).own }
{
    let fresh = fresh_at(&outside.seed, course.channel, course.draws);
    match dialog_for(outside.alloc, config, fresh, aim) {
        Ok((dialog, greeting)) => {
            course.draws = draws;
            run_dialog(
                rt, outside, gate, book, seat, course, wire, aim, dialog, &greeting,
            )
        }
        Err(_) => lack(rt, outside, book, seat),
    }
}

/// A link is used, where draws are left.
fn run_link<W: Wait, N: Net, L: Link, G: Gate>(
    rt: &W,
    outside: &Outside<N>,
    config: &ClientConfig,
    gate: &G,
    book: &SharedBook<ClientTurns>,
    seat: &mut BookSeat<ClientTurns>,
    course: &mut Course,
    wire: &mut Wire<L>,
    aim: &Aim,
) -> Parted
    requires own { IsSeatOf book.now seat.old }
    requires room { 0 < vec_len course.old.piece }
    requires offers { CanOffer config.now }
    requires stream { wire.old.stream ≡ [] }
    ensures same { IsSameSeat seat.old seat.new }
    ensures kept { KeepsChannel course.old course.new }
    ensures uses { UsesLink L.told L.given L.left L.written L.faults L.ended
        (G.bars gate.now) config.now outside.now.seed course.old.channel aim.now course.old.draws (view_of seat.old).own
        wire.old.link course.new.draws (view_of seat.new).own
        ⊎ TellsLack (view_of seat.old).own Ends (view_of seat.new).own }
{
    match course.draws.checked_add(DRAWS) {
        Some(draws) => run_fresh(
            rt, outside, config, gate, book, seat, course, wire, aim, draws,
        ),
        None => lack(rt, outside, book, seat),
    }
}

/// The link stays open where every operation is settled.
fn behind_link<L: Link + Drop>(parted: Parted, link: L) -> Went<L> {
    match parted {
        Parted::Again => Went::On,
        Parted::Done => Went::Ended(Some(link)),
        Parted::Stop => Went::Ended(None),
    }
}

fn connect<W: Wait, N: Net>(rt: &W, outside: &Outside<N>) -> Result<N::L, Failed>
    ensures fresh { IfOk result (λ link. IsNewLink N.L.told N.L.given N.L.left N.L.written N.L.faults N.L.ended link) }
    ensures cause { OnErr result (NetFailed N.faults) }
{
    outside.net.lock(rt).connect(outside.to)
}

/// It keeps away from the session that it was to be bound to, where it is told so.
fn avoid(course: &mut Course, aim: &Aim, told: &Told)
    ensures { KeepsCourse course.old course.new }
{
    if let Told::Close = told {
        course.shuns = session_of(aim);
    }
}

fn behind_failed<L: Link>(told: &Told) -> Went<L> {
    if is_stop(told) {
        return Went::Ended(None);
    }
    Went::On
}

/// A connect failed. Where a session is live all the same, this channel keeps away from it once so many have failed.
fn failed<W: Wait, N: Net, L: Link>(
    rt: &W,
    outside: &Outside<N>,
    book: &SharedBook<ClientTurns>,
    seat: &mut BookSeat<ClientTurns>,
    course: &mut Course,
    aim: &Aim,
) -> Went<L>
    requires own { IsSeatOf book.now seat.old }
    ensures same { IsSameSeat seat.old seat.new }
    ensures kept { KeepsCourse course.old course.new }
    ensures fails { (told : ToldThen) × TurnsOnce (view_of seat.old).own (turns.Failed course.old.channel) told (view_of seat.new).own }
{
    let channel = course.channel;
    course.first = false;
    let told = tell(rt, outside, book, seat, Turn::Failed { channel });
    avoid(course, aim, &told);
    behind_failed(&told)
}

/// A link that was connected is used.
fn run_connected<W: Wait, N: Net, L: Link + Drop, G: Gate>(
    rt: &W,
    outside: &Outside<N>,
    config: &ClientConfig,
    gate: &G,
    book: &SharedBook<ClientTurns>,
    seat: &mut BookSeat<ClientTurns>,
    course: &mut Course,
    aim: &Aim,
    link: L,
) -> Went<L>
    requires own { IsSeatOf book.now seat.old }
    requires room { 0 < vec_len course.old.piece }
    requires offers { CanOffer config.now }
    ensures same { IsSameSeat seat.old seat.new }
    ensures kept { KeepsChannel course.old course.new }
    ensures uses { UsesLink L.told L.given L.left L.written L.faults L.ended
        (G.bars gate.now) config.now outside.now.seed course.old.channel aim.now course.old.draws (view_of seat.old).own link
        course.new.draws (view_of seat.new).own
        ⊎ TellsLack (view_of seat.old).own Ends (view_of seat.new).own }
{
    let mut wire = Wire {
        link,
        stream: Deframer::new(outside.alloc),
    };
    let parted = run_link(
        rt, outside, config, gate, book, seat, course, &mut wire, aim,
    );
    let Wire { link, stream: _ } = wire;
    behind_link(parted, link)
}

/// A connection, where one can be made.
fn run_aim<W: Wait, N: Net, G: Gate>(
    rt: &W,
    outside: &Outside<N>,
    config: &ClientConfig,
    gate: &G,
    book: &SharedBook<ClientTurns>,
    seat: &mut BookSeat<ClientTurns>,
    course: &mut Course,
    aim: &Aim,
) -> Went<N::L>
    requires own { IsSeatOf book.now seat.old }
    requires room { 0 < vec_len course.old.piece }
    requires offers { CanOffer config.now }
    ensures same { IsSameSeat seat.old seat.new }
    ensures kept { KeepsChannel course.old course.new }
    ensures goes { (own : List Placed) → AsksOnce course.old.channel own (view_of seat.old).own (Some aim.now)
        → Round N.L.told N.L.given N.L.left N.L.written N.L.faults N.L.ended
        (G.bars gate.now) config.now outside.now.seed course.old.channel N.faults (been own course.old.draws)
        (been (view_of seat.new).own course.new.draws) }
{
    match connect(rt, outside) {
        Ok(link) => run_connected(rt, outside, config, gate, book, seat, course, aim, link),
        Err(Failed) => failed(rt, outside, book, seat, course, aim),
    }
}

/// One attempt of a channel without a connection.
fn go_round<W: Wait, N: Net, G: Gate>(
    rt: &W,
    outside: &Outside<N>,
    config: &ClientConfig,
    gate: &G,
    book: &SharedBook<ClientTurns>,
    seat: &mut BookSeat<ClientTurns>,
    course: &mut Course,
) -> Went<N::L>
    requires own { IsSeatOf book.now seat.old }
    requires room { 0 < vec_len course.old.piece }
    requires offers { CanOffer config.now }
    ensures same { IsSameSeat seat.old seat.new }
    ensures kept { KeepsChannel course.old course.new }
    ensures goes { Round N.L.told N.L.given N.L.left N.L.written N.L.faults N.L.ended
        (G.bars gate.now) config.now outside.now.seed course.old.channel N.faults (been (view_of seat.old).own course.old.draws)
        (been (view_of seat.new).own course.new.draws) }
{
    let heard = outside.news.heard();
    let turn = Turn::Begin {
        channel: course.channel,
        first: course.first,
        shuns: course.shuns,
    };
    match ask(rt, book, seat, turn) {
        Told::Make { previous } => {
            let aim = Aim::Make { previous };
            run_aim(rt, outside, config, gate, book, seat, course, &aim)
        }
        Told::Bind { bound, number } => {
            let aim = Aim::Bind { bound, number };
            run_aim(rt, outside, config, gate, book, seat, course, &aim)
        }
        Told::Nothing => {
            outside.news.rest(rt, heard);
            Went::On
        }
        Told::Send(_request) => Went::Ended(None),
        Told::Close => Went::Ended(None),
        Told::Done => Went::Ended(None),
        Told::Stop => Went::Ended(None),
    }
}

fn run_course<W: Wait, N: Net, G: Gate>(
    rt: &W,
    outside: &Outside<N>,
    config: &ClientConfig,
    gate: &G,
    book: &SharedBook<ClientTurns>,
    seat: &mut BookSeat<ClientTurns>,
    course: &mut Course,
) -> Option<N::L>
    requires own { IsSeatOf book.now seat.old }
    requires room { 0 < vec_len course.old.piece }
    requires offers { CanOffer config.now }
    ensures same { IsSameSeat seat.old seat.new }
    ensures goes { GoesRound N.L.told N.L.given N.L.left N.L.written N.L.faults N.L.ended
        (G.bars gate.now) config.now outside.now.seed course.old.channel N.faults (been (view_of seat.old).own course.old.draws)
        (been (view_of seat.new).own course.new.draws) }
{
    for _ in rt.forever() {
        match go_round(rt, outside, config, gate, book, seat, course) {
            Went::On => {}
            Went::Ended(link) => return link,
        }
    }
    unreachable!()
}

/// Room for what a read takes.
fn empty_piece(alloc: Global) -> Result<Vec<u8>, AllocError>
    ensures { IfOk result (λ piece. 0 < vec_len piece) }
{
    vec![in alloc; 0u8; PIECE]
}

/// A channel until every operation is settled, no session can be had, or memory has run out.
pub(crate) fn work<W: Wait, N: Net, G: Gate>(
    rt: &W,
    outside: &Outside<N>,
    config: &ClientConfig,
    gate: &G,
    book: &SharedBook<ClientTurns>,
    mut seat: BookSeat<ClientTurns>,
    channel: u8,
) -> ChannelWorked<N::L>
    requires own { IsSeatOf book.now seat }
    requires offers { CanOffer config.now }
    ensures own { AreOfOneBook seat result.seat }
    ensures lasts { lasting (view_of result.seat) ≡ lasting (view_of seat) }
    ensures works { (draws : ℕ) × GoesRound N.L.told N.L.given N.L.left N.L.written N.L.faults N.L.ended
        (G.bars gate.now) config.now outside.now.seed channel N.faults (been (view_of seat).own 0) (been (view_of result.seat).own draws) }
{
    let piece = match empty_piece(outside.alloc) {
        Ok(piece) => piece,
        Err(_) => {
            lack(rt, outside, book, &mut seat);
            return Worked { seat, link: None };
        }
    };
    let mut course = Course {
        channel,
        first: true,
        shuns: 0,
        turns: 0,
        draws: 0,
        piece,
    };
    let link = run_course(rt, outside, config, gate, book, &mut seat, &mut course);
    // Those that rest look whether they may end too.
    outside.news.ring();
    Worked { seat, link }
}
