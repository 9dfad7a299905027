//! What a channel knows of itself, and its turns at the client.
ghost use Rattle.std.specs.Prelude.{◌≡◌, ◌<◌, ℕ, vec_len};
ghost use Rattle.serve_turns.specs.shared_book.Words.{view_of, IsSameSeat, IsSeatOf};
ghost use Rattle.client_channels.specs.channel_turns.Asides.{Asides, TellsLack};
ghost use Rattle.client_channels.specs.channel_turns.Links.{ComesIf};
ghost use Rattle.client_channels.specs.channel_turns.Passing.{KeepsCourse};
ghost use Rattle.client_channels.specs.channel_turns.Sides.{Ends, Side, is_stop};
ghost use Rattle.client_channels.specs.channel_turns.Turning.{TurnsOnce};
ghost use Rattle.client_channels.specs.declared.channel_turns.passing.Parted.TheVariants as parts;
ghost use Rattle.client_channels.specs.declared.channel_turns.starting.Aim.{Aim as Aimed};

use crate::channel_links::{Came, take_frame};
use crate::channel_turns::outside::{Gate, Outside};
use crate::channel_turns::shared_client::ClientTurns;
use base_outside::{Link, Net};
use client_book::{Told, Turn};
use serve_turns::{BookSeat, SharedBook};
use std::sync::Wait;
use wire_bytes::Deframer;

/// How many bytes a read takes at most.
pub(crate) const PIECE: usize = 65536;

/// A channel's number, whether none of its dialogs has ended yet, the session to which it is not to be bound, how many frames it waited
/// for, how many draws it took, and where a read puts what it takes.
#[derive(Drop)]
pub(crate) struct Course {
    pub channel: u8,
    pub first: bool,
    pub shuns: u64,
    pub turns: u64,
    pub draws: u64,
    pub piece: Vec<u8>,
}

/// A link, and what of its stream has yet to be taken.
#[derive(Drop)]
pub(crate) struct Wire<L: Link> {
    pub link: L,
    pub stream: Deframer,
}

/// How a channel goes on behind a link.
#[derive(Clone, Copy, Debug, PartialEq, Eq)]
pub(crate) enum Parted {
    /// It begins anew, without the link.
    Again,
    /// Every operation is settled: the link stays until all channels have ended.
    Done,
    /// Memory ran out.
    Stop,
}

/// A turn of which no other channel need hear.
pub(crate) fn ask<W: Wait>(
    rt: &W,
    book: &SharedBook<ClientTurns>,
    seat: &mut BookSeat<ClientTurns>,
    turn: Turn,
) -> Told
    requires own { IsSeatOf book.now seat.old }
    ensures same { IsSameSeat seat.old seat.new }
    ensures turns { TurnsOnce (view_of seat.old).own turn result (view_of seat.new).own }
{
    let (told, _) = book.apply(rt, seat, turn);
    told
}

/// A turn at the client, of which other channels are told.
pub(crate) fn tell<W: Wait, N: Net>(
    rt: &W,
    outside: &Outside<N>,
    book: &SharedBook<ClientTurns>,
    seat: &mut BookSeat<ClientTurns>,
    turn: Turn,
) -> Told
    requires own { IsSeatOf book.now seat.old }
    ensures same { IsSameSeat seat.old seat.new }
    ensures turns { TurnsOnce (view_of seat.old).own turn result (view_of seat.new).own }
{
    let told = ask(rt, book, seat, turn);
    outside.news.ring();
    told
}

/// The channel found no memory, so that all are to stop.
pub(crate) fn lack<W: Wait, N: Net>(
    rt: &W,
    outside: &Outside<N>,
    book: &SharedBook<ClientTurns>,
    seat: &mut BookSeat<ClientTurns>,
) -> Parted
    requires own { IsSeatOf book.now seat.old }
    ensures same { IsSameSeat seat.old seat.new }
    ensures lacks { (a : Aimed) (k : ℕ) (s : Side) → Asides a k s (view_of seat.old).own Ends (view_of seat.new).own }
    ensures tells { TellsLack (view_of seat.old).own Ends (view_of seat.new).own }
    ensures stop { result ≡ parts.Stop }
{
    tell(rt, outside, book, seat, Turn::Lack);
    Parted::Stop
}

/// Whether memory ran out.
pub(crate) fn is_stop(told: &Told) -> bool
    ensures { result ≡ is_stop told.now }
{
    match told {
        Told::Nothing => false,
        Told::Make { previous: _ } => false,
        Told::Bind {
            bound: _,
            number: _,
        } => false,
        Told::Send(_) => false,
        Told::Close => false,
        Told::Done => false,
        Told::Stop => true,
    }
}

/// How a channel goes on that is to close its link.
pub(crate) fn parted_by(told: &Told) -> Parted {
    if is_stop(told) {
        return Parted::Stop;
    }
    Parted::Again
}

/// The next frame of a link, where the gate lets the channel pass.
pub(crate) fn next_frame<W: Wait, L: Link, G: Gate>(
    rt: &W,
    gate: &G,
    course: &mut Course,
    wire: &mut Wire<L>,
) -> Came
    requires room { 0 < vec_len course.old.piece }
    ensures kept { KeepsCourse course.old course.new }
    ensures comes { ComesIf L.told L.given L.left L.written L.faults L.ended (G.bars gate.now) course.old.channel wire.old.link
        wire.old.stream
        wire.new.link wire.new.stream result }
{
    let turn = course.turns;
    course.turns = turn.saturating_add(1);
    let channel = u32::from(course.channel);
    let passes = gate.pass(channel, turn);
    if !passes {
        return Came::Over;
    }
    take_frame(rt, &mut wire.link, &mut wire.stream, &mut course.piece)
}
