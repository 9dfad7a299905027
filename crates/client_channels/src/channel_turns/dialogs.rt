//! A dialog on a link.
ghost use Rattle.std.specs.Prelude.{◌≡◌, ◌<◌, ◌^◌, length, ℕ, vec_len, is_some, if◌then◌else◌};
ghost use Rattle.client_ends.specs.declared.ends.dialog.Dialog.{Dialog as Talking};
ghost use Rattle.serve_turns.specs.shared_book.Words.{view_of, IsSameSeat, IsSeatOf};
ghost use Rattle.client_channels.specs.channel_turns.Asides.{Asides, TakesOrLoses};
ghost use Rattle.client_channels.specs.channel_turns.Links.{Passes, line_or_end, on, side_unless, talked_side};
ghost use Rattle.client_channels.specs.channel_turns.Passing.{KeepsCourse};
ghost use Rattle.client_channels.specs.channel_turns.Sides.{Accepts, Ends, Finishes, IsDenied, IsReady, IsStale, Joins, Leaves, Says};
ghost use Rattle.client_channels.specs.channel_turns.Sides.{Side, Talks};
ghost use Rattle.client_channels.specs.channel_turns.Sides.{behind_refused, side_heard};
ghost use Rattle.client_channels.specs.declared.channel_turns.starting.Aim.{Aim as Aimed};

use crate::channel_links::{Came, Said, say};
use crate::channel_turns::outside::{Gate, Outside};
use crate::channel_turns::passing::{
    Course, Parted, Wire, is_stop, lack, next_frame, parted_by, tell,
};
use crate::channel_turns::shared_client::ClientTurns;
use crate::channel_turns::starting::{Aim, number_of, session_of};
use base_outside::{Link, Net};
use client_book::{Turn, is_nothing};
use client_ends::dialog_calls::hear;
use client_ends::{Dialog, Heard, Line};
use serve_turns::{BookSeat, SharedBook};
use spec_crypto::Keys;
use std::sync::Wait;
use wire_bytes::{Bytes, Refusal};

/// What a dialog came to.
#[derive(Drop)]
pub(crate) enum Talked {
    /// It goes on.
    On,
    /// Its channel is ready.
    Ready(Line),
    Ends(Parted),
}

/// It goes on, or the link is used no more.
fn talked_by(parted: Option<Parted>) -> Talked
    ensures { (s : Side) → talked_side result s ≡ side_unless parted s }
{
    match parted {
        None => Talked::On,
        Some(parted) => Talked::Ends(parted),
    }
}

/// The link ended in the course of the dialog.
fn left<W: Wait, N: Net>(
    rt: &W,
    outside: &Outside<N>,
    book: &SharedBook<ClientTurns>,
    seat: &mut BookSeat<ClientTurns>,
    channel: u8,
) -> Parted
    requires own { IsSeatOf book.now seat.old }
    ensures same { IsSameSeat seat.old seat.new }
    ensures leaves { (a : Aimed) → Asides a channel Leaves (view_of seat.old).own Ends (view_of seat.new).own }
{
    let told = tell(rt, outside, book, seat, Turn::Leave { channel });
    parted_by(&told)
}

/// The next message of a dialog goes out.
pub(crate) fn speak<W: Wait, N: Net, L: Link, G: Gate>(
    rt: &W,
    outside: &Outside<N>,
    gate: &G,
    book: &SharedBook<ClientTurns>,
    seat: &mut BookSeat<ClientTurns>,
    channel: u8,
    wire: &mut Wire<L>,
    message: &Bytes,
) -> Option<Parted>
    requires own { IsSeatOf book.now seat.old }
    ensures same { IsSameSeat seat.old seat.new }
    ensures speaks { (a : Aimed) (d : Talking)
        → Passes L.told L.given L.left L.written L.faults L.ended (G.bars gate.now) a channel
        (on (Says message.now (Talks d)) wire.old.stream wire.old.link (view_of seat.old).own)
        (on (side_unless result (Talks d)) wire.new.stream wire.new.link (view_of seat.new).own) }
{
    match say(outside.alloc, &mut wire.link, message) {
        Said::Whole => None,
        Said::Lost => Some(left(rt, outside, book, seat, channel)),
        Said::Lack => Some(lack(rt, outside, book, seat)),
    }
}

/// A session is accepted: its TREE_CONNECT goes out.
fn accept<W: Wait, N: Net, L: Link, G: Gate>(
    rt: &W,
    outside: &Outside<N>,
    gate: &G,
    book: &SharedBook<ClientTurns>,
    seat: &mut BookSeat<ClientTurns>,
    channel: u8,
    wire: &mut Wire<L>,
    session: u64,
    keys: Keys,
    message: &Bytes,
) -> Option<Parted>
    requires own { IsSeatOf book.now seat.old }
    ensures same { IsSameSeat seat.old seat.new }
    ensures accepts { (a : Aimed) (d : Talking) → d.session ≡ session
        → Passes L.told L.given L.left L.written L.faults L.ended (G.bars gate.now) a channel
        (on (Accepts keys message.now d) wire.old.stream wire.old.link (view_of seat.old).own)
        (on (side_unless result (Talks d)) wire.new.stream wire.new.link (view_of seat.new).own) }
{
    let told = tell(rt, outside, book, seat, Turn::Accept { session, keys });
    let stops = is_stop(&told);
    if stops {
        return Some(Parted::Stop);
    }
    speak(rt, outside, gate, book, seat, channel, wire, message)
}

/// It named a session that has ended, which counts as a connect that failed.
fn stale<W: Wait, N: Net>(
    rt: &W,
    outside: &Outside<N>,
    book: &SharedBook<ClientTurns>,
    seat: &mut BookSeat<ClientTurns>,
    channel: u8,
) -> Parted
    requires own { IsSeatOf book.now seat.old }
    ensures same { IsSameSeat seat.old seat.new }
    ensures stale { (a : Aimed) → Asides a channel IsStale (view_of seat.old).own Ends (view_of seat.new).own }
{
    let told = tell(rt, outside, book, seat, Turn::Failed { channel });
    parted_by(&told)
}

/// The channel is ready, where the client takes it so.
fn ready<W: Wait, N: Net>(
    rt: &W,
    outside: &Outside<N>,
    book: &SharedBook<ClientTurns>,
    seat: &mut BookSeat<ClientTurns>,
    channel: u8,
    line: Line,
    session: u64,
    tree: u32,
) -> Talked
    requires own { IsSeatOf book.now seat.old }
    ensures same { IsSameSeat seat.old seat.new }
    ensures readies { (a : Aimed) → Asides a channel (IsReady line session tree) (view_of seat.old).own
        (talked_side result Ends) (view_of seat.new).own }
    ensures ends { (s : Side) → talked_side result s ≡ talked_side result Ends }
{
    let turn = Turn::Ready {
        channel,
        session,
        tree,
    };
    let told = tell(rt, outside, book, seat, turn);
    let nothing = is_nothing(&told);
    if nothing {
        return Talked::Ready(line);
    }
    let stops = is_stop(&told);
    if stops {
        return Talked::Ends(Parted::Stop);
    }
    Talked::Ends(stale(rt, outside, book, seat, channel))
}

/// No session can be had.
fn finish<W: Wait, N: Net>(
    rt: &W,
    outside: &Outside<N>,
    book: &SharedBook<ClientTurns>,
    seat: &mut BookSeat<ClientTurns>,
    why: Refusal,
) -> Parted
    requires own { IsSeatOf book.now seat.old }
    ensures same { IsSameSeat seat.old seat.new }
    ensures finishes { (a : Aimed) (k : ℕ) → Asides a k (Finishes why) (view_of seat.old).own Ends (view_of seat.new).own }
{
    let told = tell(rt, outside, book, seat, Turn::Finish { why });
    parted_by(&told)
}

/// Behind a refusal: where a session was to be made, all is given up.
fn give_up<W: Wait, N: Net>(
    rt: &W,
    outside: &Outside<N>,
    book: &SharedBook<ClientTurns>,
    seat: &mut BookSeat<ClientTurns>,
    _channel: u8,
    aim: &Aim,
    why: Refusal,
) -> Parted
    requires own { IsSeatOf book.now seat.old }
    ensures same { IsSameSeat seat.old seat.new }
    ensures gives { Asides aim.now _channel (behind_refused aim.now why) (view_of seat.old).own Ends (view_of seat.new).own }
{
    match aim {
        Aim::Make { previous: _ } => finish(rt, outside, book, seat, why),
        Aim::Bind {
            bound: _,
            number: _,
        } => Parted::Again,
    }
}

/// It is refused.
fn refuse<W: Wait, N: Net>(
    rt: &W,
    outside: &Outside<N>,
    book: &SharedBook<ClientTurns>,
    seat: &mut BookSeat<ClientTurns>,
    channel: u8,
    aim: &Aim,
    why: Refusal,
) -> Parted
    requires own { IsSeatOf book.now seat.old }
    ensures same { IsSameSeat seat.old seat.new }
    ensures refuses { Asides aim.now channel (IsDenied why) (view_of seat.old).own Ends (view_of seat.new).own }
{
    let told = tell(rt, outside, book, seat, Turn::Refused { channel, why });
    let stops = is_stop(&told);
    if stops {
        return Parted::Stop;
    }
    give_up(rt, outside, book, seat, channel, aim, why)
}

/// A channel that was to be bound keeps away from a session that refused it.
fn shun(course: &mut Course, aim: &Aim)
    ensures { KeepsCourse course.old course.new }
{
    course.first = false;
    course.shuns = session_of(aim);
}

/// A bound channel's dialog gives its line away, and nothing else.
fn joined_by<W: Wait, N: Net>(
    rt: &W,
    outside: &Outside<N>,
    book: &SharedBook<ClientTurns>,
    seat: &mut BookSeat<ClientTurns>,
    channel: u8,
    _aim: &Aim,
    _dialog: &Dialog,
    heard: Heard,
) -> Talked
    requires own { IsSeatOf book.now seat.old }
    ensures same { IsSameSeat seat.old seat.new }
    ensures joins { Asides _aim.now channel (side_heard heard _dialog.now) (view_of seat.old).own (talked_side result Ends)
        (view_of seat.new).own }
    ensures ends { (s : Side) → talked_side result s ≡ talked_side result Ends }
{
    match heard {
        Heard::Ready {
            line,
            session,
            tree,
        } => ready(rt, outside, book, seat, channel, line, session, tree),
        Heard::Say(_) => Talked::Ends(lack(rt, outside, book, seat)),
        Heard::Accepted {
            keys: _,
            chosen: _,
            tree_connect: _,
        } => Talked::Ends(lack(rt, outside, book, seat)),
        Heard::Refused(_) => Talked::Ends(lack(rt, outside, book, seat)),
    }
}

/// A bound channel is ready at once: its dialog gives its line away at the next call.
fn join<W: Wait, N: Net>(
    rt: &W,
    outside: &Outside<N>,
    book: &SharedBook<ClientTurns>,
    seat: &mut BookSeat<ClientTurns>,
    channel: u8,
    aim: &Aim,
    dialog: &mut Dialog,
) -> Talked
    requires own { IsSeatOf book.now seat.old }
    ensures same { IsSameSeat seat.old seat.new }
    ensures joins { Asides aim.now channel (Joins dialog.old) (view_of seat.old).own (talked_side result Ends) (view_of seat.new).own }
    ensures ends { (s : Side) → talked_side result s ≡ talked_side result Ends }
{
    match hear(dialog, &[], number_of(aim)) {
        Ok(heard) => joined_by(rt, outside, book, seat, channel, aim, dialog, heard),
        Err(_) => Talked::Ends(lack(rt, outside, book, seat)),
    }
}

/// A session is accepted, or a channel bound to one.
fn accept_or_join<W: Wait, N: Net, L: Link, G: Gate>(
    rt: &W,
    outside: &Outside<N>,
    gate: &G,
    book: &SharedBook<ClientTurns>,
    seat: &mut BookSeat<ClientTurns>,
    channel: u8,
    wire: &mut Wire<L>,
    aim: &Aim,
    dialog: &mut Dialog,
    keys: Keys,
    message: &Bytes,
) -> Talked
    requires own { IsSeatOf book.now seat.old }
    ensures same { IsSameSeat seat.old seat.new }
    ensures accepts { Passes L.told L.given L.left L.written L.faults L.ended (G.bars gate.now) aim.now channel
        (on (if is_some dialog.old.bound then Joins dialog.old else Accepts keys message.now dialog.old) wire.old.stream wire.old.link
        (view_of seat.old).own) (on (talked_side result (Talks dialog.new)) wire.new.stream wire.new.link (view_of seat.new).own) }
{
    let bound = dialog.bound.is_some();
    if bound {
        return join(rt, outside, book, seat, channel, aim, dialog);
    }
    let session = dialog.session;
    talked_by(accept(
        rt, outside, gate, book, seat, channel, wire, session, keys, message,
    ))
}

/// What a dialog heard happens.
fn turn<W: Wait, N: Net, L: Link, G: Gate>(
    rt: &W,
    outside: &Outside<N>,
    gate: &G,
    book: &SharedBook<ClientTurns>,
    seat: &mut BookSeat<ClientTurns>,
    course: &mut Course,
    wire: &mut Wire<L>,
    aim: &Aim,
    dialog: &mut Dialog,
    heard: Heard,
) -> Talked
    requires own { IsSeatOf book.now seat.old }
    ensures same { IsSameSeat seat.old seat.new }
    ensures kept { KeepsCourse course.old course.new }
    ensures turns { Passes L.told L.given L.left L.written L.faults L.ended (G.bars gate.now) aim.now course.old.channel
        (on (side_heard heard dialog.old) wire.old.stream wire.old.link (view_of seat.old).own)
        (on (talked_side result (Talks dialog.new)) wire.new.stream wire.new.link (view_of seat.new).own) }
{
    let channel = course.channel;
    match heard {
        Heard::Say(message) => {
            talked_by(speak(rt, outside, gate, book, seat, channel, wire, &message))
        }
        Heard::Accepted {
            keys,
            chosen: _,
            tree_connect,
        } => {
            accept_or_join(
                rt,
                outside,
                gate,
                book,
                seat,
                channel,
                wire,
                aim,
                dialog,
                keys,
                &tree_connect,
            )
        }
        Heard::Ready {
            line,
            session,
            tree,
        } => ready(rt, outside, book, seat, channel, line, session, tree),
        Heard::Refused(why) => {
            shun(course, aim);
            Talked::Ends(refuse(rt, outside, book, seat, channel, aim, why))
        }
    }
}

fn hear_message<W: Wait, N: Net, L: Link, G: Gate>(
    rt: &W,
    outside: &Outside<N>,
    gate: &G,
    book: &SharedBook<ClientTurns>,
    seat: &mut BookSeat<ClientTurns>,
    course: &mut Course,
    wire: &mut Wire<L>,
    aim: &Aim,
    dialog: &mut Dialog,
    message: &Bytes,
) -> Talked
    requires own { IsSeatOf book.now seat.old }
    requires short { length message.now < 2 ^ 60 }
    ensures same { IsSameSeat seat.old seat.new }
    ensures kept { KeepsCourse course.old course.new }
    ensures hears { (s : Side) × TakesOrLoses aim.now (Talks dialog.old) message.now s
        × Passes L.told L.given L.left L.written L.faults L.ended (G.bars gate.now) aim.now course.old.channel
        (on s wire.old.stream wire.old.link (view_of seat.old).own)
        (on (talked_side result (Talks dialog.new)) wire.new.stream wire.new.link (view_of seat.new).own) }
{
    match hear(dialog, message.as_slice(), number_of(aim)) {
        Ok(heard) => turn(
            rt, outside, gate, book, seat, course, wire, aim, dialog, heard,
        ),
        Err(_) => Talked::Ends(lack(rt, outside, book, seat)),
    }
}

/// A dialog hears the next frame.
fn talk_on<W: Wait, N: Net, L: Link, G: Gate>(
    rt: &W,
    outside: &Outside<N>,
    gate: &G,
    book: &SharedBook<ClientTurns>,
    seat: &mut BookSeat<ClientTurns>,
    course: &mut Course,
    wire: &mut Wire<L>,
    aim: &Aim,
    dialog: &mut Dialog,
) -> Talked
    requires own { IsSeatOf book.now seat.old }
    requires room { 0 < vec_len course.old.piece }
    ensures same { IsSameSeat seat.old seat.new }
    ensures kept { KeepsCourse course.old course.new }
    ensures talks { Passes L.told L.given L.left L.written L.faults L.ended (G.bars gate.now) aim.now course.old.channel
        (on (Talks dialog.old) wire.old.stream wire.old.link (view_of seat.old).own)
        (on (talked_side result (Talks dialog.new)) wire.new.stream wire.new.link (view_of seat.new).own) }
{
    match next_frame(rt, gate, course, wire) {
        Came::Frame(message) => hear_message(
            rt, outside, gate, book, seat, course, wire, aim, dialog, &message,
        ),
        Came::Over => Talked::Ends(left(rt, outside, book, seat, course.channel)),
        Came::Lack => Talked::Ends(lack(rt, outside, book, seat)),
    }
}

/// A dialog whose NEGOTIATE went out, until its channel is ready or its link is left.
pub(crate) fn talk<W: Wait, N: Net, L: Link, G: Gate>(
    rt: &W,
    outside: &Outside<N>,
    gate: &G,
    book: &SharedBook<ClientTurns>,
    seat: &mut BookSeat<ClientTurns>,
    course: &mut Course,
    wire: &mut Wire<L>,
    aim: &Aim,
    mut dialog: Dialog,
) -> Result<Line, Parted>
    requires own { IsSeatOf book.now seat.old }
    requires room { 0 < vec_len course.old.piece }
    ensures same { IsSameSeat seat.old seat.new }
    ensures kept { KeepsCourse course.old course.new }
    ensures talks { Passes L.told L.given L.left L.written L.faults L.ended (G.bars gate.now) aim.now course.old.channel
        (on (Talks dialog) wire.old.stream wire.old.link (view_of seat.old).own)
        (on (line_or_end result) wire.new.stream wire.new.link (view_of seat.new).own) }
{
    for _ in rt.forever() {
        match talk_on(
            rt,
            outside,
            gate,
            book,
            seat,
            course,
            wire,
            aim,
            &mut dialog,
        ) {
            Talked::On => {}
            Talked::Ready(line) => return Ok(line),
            Talked::Ends(parted) => return Err(parted),
        }
    }
    unreachable!()
}
