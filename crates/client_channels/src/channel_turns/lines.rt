//! A channel that is ready: it sends what the client tells it to, and hears a frame before it sends again.
ghost use Rattle.std.specs.Prelude.{◌≡◌, ◌<◌, ◌≤◌, ◌^◌, length, vec_len};
ghost use Rattle.client_ends.specs.declared.ends.line.Line.{Line as Running};
ghost use Rattle.client_ends.specs.line_calls.Sending.{CanSend};
ghost use Rattle.serve_turns.specs.shared_book.Words.{view_of, IsSameSeat, IsSeatOf};
ghost use Rattle.client_channels.specs.channel_turns.Asides.{Asides, TakesOrLoses};
ghost use Rattle.client_channels.specs.channel_turns.Links.{Passes, on, side_unless};
ghost use Rattle.client_channels.specs.channel_turns.Passing.{KeepsCourse};
ghost use Rattle.client_channels.specs.channel_turns.Sides.{Breaks, Ends, Hears, Runs, Says, Sends, Side};
ghost use Rattle.client_channels.specs.channel_turns.Turning.{CanSendTold, TurnsOnce};
ghost use Rattle.client_channels.specs.declared.channel_turns.starting.Aim.{Aim as Aimed};
ghost use Rattle.client_book.specs.declared.turn.Turn.TheVariants as turns;

use crate::channel_links::{Came, Said, say};
use crate::channel_turns::outside::{Gate, Outside};
use crate::channel_turns::passing::{Course, Parted, Wire, lack, next_frame, parted_by, tell};
use crate::channel_turns::shared_client::ClientTurns;
use base_outside::{Link, Net};
use client_book::{Told, Turn, is_nothing};
use client_ends::line_calls::hear_or_wait;
use client_ends::{Answer, Line, LineError, send};
use serve_turns::{BookSeat, SharedBook};
use std::sync::Wait;
use wire_bytes::{Bytes, Request};

/// The channel is cut: the client hears of it.
fn cut<W: Wait, N: Net>(
    rt: &W,
    outside: &Outside<N>,
    book: &SharedBook<ClientTurns>,
    seat: &mut BookSeat<ClientTurns>,
    channel: u8,
) -> Parted
    requires own { IsSeatOf book.now seat.old }
    ensures same { IsSameSeat seat.old seat.new }
    ensures cuts { (a : Aimed) → Asides a channel Breaks (view_of seat.old).own Ends (view_of seat.new).own }
{
    let told = tell(rt, outside, book, seat, Turn::Cut { channel });
    parted_by(&told)
}

fn put<W: Wait, N: Net, L: Link, G: Gate>(
    rt: &W,
    outside: &Outside<N>,
    gate: &G,
    book: &SharedBook<ClientTurns>,
    seat: &mut BookSeat<ClientTurns>,
    channel: u8,
    wire: &mut Wire<L>,
    frame: &Bytes,
) -> Option<Parted>
    requires own { IsSeatOf book.now seat.old }
    ensures same { IsSameSeat seat.old seat.new }
    ensures puts { (a : Aimed) (l : Running)
        → Passes L.told L.given L.left L.written L.faults L.ended (G.bars gate.now) a channel
        (on (Says frame.now (Runs l)) wire.old.stream wire.old.link (view_of seat.old).own)
        (on (side_unless result (Runs l)) wire.new.stream wire.new.link (view_of seat.new).own) }
{
    match say(outside.alloc, &mut wire.link, frame) {
        Said::Whole => None,
        Said::Lost => Some(cut(rt, outside, book, seat, channel)),
        Said::Lack => Some(lack(rt, outside, book, seat)),
    }
}

/// A request goes out.
fn say_request<W: Wait, N: Net, L: Link, G: Gate>(
    rt: &W,
    outside: &Outside<N>,
    gate: &G,
    book: &SharedBook<ClientTurns>,
    seat: &mut BookSeat<ClientTurns>,
    channel: u8,
    wire: &mut Wire<L>,
    line: &mut Line,
    request: &Request,
) -> Option<Parted>
    requires own { IsSeatOf book.now seat.old }
    requires sends { CanSend request.now }
    ensures same { IsSameSeat seat.old seat.new }
    ensures says { (a : Aimed)
        → Passes L.told L.given L.left L.written L.faults L.ended (G.bars gate.now) a channel
        (on (Sends line.old request.now) wire.old.stream wire.old.link (view_of seat.old).own)
        (on (side_unless result (Runs line.new)) wire.new.stream wire.new.link (view_of seat.new).own) }
{
    match send(line, request) {
        Ok(frame) => put(rt, outside, gate, book, seat, channel, wire, &frame),
        // The channel has no nonce left, so that another connection has to be made.
        Err(LineError::Spent) => Some(cut(rt, outside, book, seat, channel)),
        Err(LineError::Memory) => Some(lack(rt, outside, book, seat)),
        Err(LineError::NoCredit(_)) => Some(lack(rt, outside, book, seat)),
        Err(LineError::BadReply) => Some(lack(rt, outside, book, seat)),
    }
}

fn tell_answer<W: Wait, N: Net>(
    rt: &W,
    outside: &Outside<N>,
    book: &SharedBook<ClientTurns>,
    seat: &mut BookSeat<ClientTurns>,
    channel: u8,
    answer: Answer,
) -> Option<Parted>
    requires own { IsSeatOf book.now seat.old }
    ensures same { IsSameSeat seat.old seat.new }
    ensures tells { (a : Aimed) (l : Running) → Asides a channel (Hears l answer) (view_of seat.old).own
        (side_unless result (Runs l)) (view_of seat.new).own }
{
    let told = tell(rt, outside, book, seat, Turn::Hear { channel, answer });
    let nothing = is_nothing(&told);
    if nothing {
        return None;
    }
    Some(parted_by(&told))
}

fn hear_message<W: Wait, N: Net>(
    rt: &W,
    outside: &Outside<N>,
    book: &SharedBook<ClientTurns>,
    seat: &mut BookSeat<ClientTurns>,
    channel: u8,
    line: &mut Line,
    message: &Bytes,
) -> Option<Parted>
    requires own { IsSeatOf book.now seat.old }
    requires short { length message.now < 2 ^ 60 }
    ensures same { IsSameSeat seat.old seat.new }
    ensures hears { (a : Aimed) → (s : Side) × TakesOrLoses a (Runs line.old) message.now s
        × Asides a channel s (view_of seat.old).own (side_unless result (Runs line.new)) (view_of seat.new).own }
{
    match hear_or_wait(line, message.as_slice()) {
        Ok(Some(answer)) => tell_answer(rt, outside, book, seat, channel, answer),
        // An interim response: the reply still comes.
        Ok(None) => None,
        Err(LineError::BadReply) => Some(cut(rt, outside, book, seat, channel)),
        Err(LineError::Memory) => Some(lack(rt, outside, book, seat)),
        Err(LineError::NoCredit(_)) => Some(lack(rt, outside, book, seat)),
        Err(LineError::Spent) => Some(lack(rt, outside, book, seat)),
    }
}

/// The line hears the next frame.
fn hear_on<W: Wait, N: Net, L: Link, G: Gate>(
    rt: &W,
    outside: &Outside<N>,
    gate: &G,
    book: &SharedBook<ClientTurns>,
    seat: &mut BookSeat<ClientTurns>,
    course: &mut Course,
    wire: &mut Wire<L>,
    line: &mut Line,
) -> Option<Parted>
    requires own { IsSeatOf book.now seat.old }
    requires room { 0 < vec_len course.old.piece }
    ensures same { IsSameSeat seat.old seat.new }
    ensures kept { KeepsCourse course.old course.new }
    ensures hears { (a : Aimed)
        → Passes L.told L.given L.left L.written L.faults L.ended (G.bars gate.now) a course.old.channel
        (on (Runs line.old) wire.old.stream wire.old.link (view_of seat.old).own)
        (on (side_unless result (Runs line.new)) wire.new.stream wire.new.link (view_of seat.new).own) }
{
    match next_frame(rt, gate, course, wire) {
        Came::Frame(message) => {
            hear_message(rt, outside, book, seat, course.channel, line, &message)
        }
        Came::Over => Some(cut(rt, outside, book, seat, course.channel)),
        Came::Lack => Some(lack(rt, outside, book, seat)),
    }
}

/// Behind a push that sends nothing: where a request waits for its reply the next frame is heard, else the channel rests until others have
/// news.
fn hear_or_rest<W: Wait, N: Net, L: Link, G: Gate>(
    rt: &W,
    outside: &Outside<N>,
    gate: &G,
    book: &SharedBook<ClientTurns>,
    seat: &mut BookSeat<ClientTurns>,
    course: &mut Course,
    wire: &mut Wire<L>,
    line: &mut Line,
    heard: u64,
) -> Option<Parted>
    requires own { IsSeatOf book.now seat.old }
    requires room { 0 < vec_len course.old.piece }
    ensures same { IsSameSeat seat.old seat.new }
    ensures kept { KeepsCourse course.old course.new }
    ensures hears { (a : Aimed)
        → Passes L.told L.given L.left L.written L.faults L.ended (G.bars gate.now) a course.old.channel
        (on (Runs line.old) wire.old.stream wire.old.link (view_of seat.old).own)
        (on (side_unless result (Runs line.new)) wire.new.stream wire.new.link (view_of seat.new).own) }
{
    let none = line.awaited.is_empty();
    if none {
        outside.news.rest(rt, heard);
        return None;
    }
    hear_on(rt, outside, gate, book, seat, course, wire, line)
}

/// A request goes out, and the next frame is heard.
fn send_and_hear<W: Wait, N: Net, L: Link, G: Gate>(
    rt: &W,
    outside: &Outside<N>,
    gate: &G,
    book: &SharedBook<ClientTurns>,
    seat: &mut BookSeat<ClientTurns>,
    course: &mut Course,
    wire: &mut Wire<L>,
    line: &mut Line,
    request: &Request,
) -> Option<Parted>
    requires own { IsSeatOf book.now seat.old }
    requires room { 0 < vec_len course.old.piece }
    requires sends { CanSend request.now }
    ensures same { IsSameSeat seat.old seat.new }
    ensures kept { KeepsCourse course.old course.new }
    ensures sends { (a : Aimed)
        → Passes L.told L.given L.left L.written L.faults L.ended (G.bars gate.now) a course.old.channel
        (on (Sends line.old request.now) wire.old.stream wire.old.link (view_of seat.old).own)
        (on (side_unless result (Runs line.new)) wire.new.stream wire.new.link (view_of seat.new).own) }
{
    match say_request(
        rt,
        outside,
        gate,
        book,
        seat,
        course.channel,
        wire,
        line,
        request,
    ) {
        Some(parted) => Some(parted),
        None => hear_on(rt, outside, gate, book, seat, course, wire, line),
    }
}

/// The client chooses what is to be sent, which the line can send.
fn push<W: Wait>(
    rt: &W,
    book: &SharedBook<ClientTurns>,
    seat: &mut BookSeat<ClientTurns>,
    channel: u8,
    credits: u32,
) -> Told
    requires own { IsSeatOf book.now seat.old }
    ensures same { IsSameSeat seat.old seat.new }
    ensures turns { TurnsOnce (view_of seat.old).own (turns.Push channel credits) result (view_of seat.new).own }
    ensures sends { CanSendTold result }
{
    let (told, _) = book.apply(rt, seat, Turn::Push { channel, credits });
    told
}

/// One push, and what follows it.
fn push_on<W: Wait, N: Net, L: Link, G: Gate>(
    rt: &W,
    outside: &Outside<N>,
    gate: &G,
    book: &SharedBook<ClientTurns>,
    seat: &mut BookSeat<ClientTurns>,
    course: &mut Course,
    wire: &mut Wire<L>,
    line: &mut Line,
) -> Option<Parted>
    requires own { IsSeatOf book.now seat.old }
    requires room { 0 < vec_len course.old.piece }
    ensures same { IsSameSeat seat.old seat.new }
    ensures kept { KeepsCourse course.old course.new }
    ensures pushes { (a : Aimed)
        → Passes L.told L.given L.left L.written L.faults L.ended (G.bars gate.now) a course.old.channel
        (on (Runs line.old) wire.old.stream wire.old.link (view_of seat.old).own)
        (on (side_unless result (Runs line.new)) wire.new.stream wire.new.link (view_of seat.new).own) }
{
    let heard = outside.news.heard();
    let channel = course.channel;
    let credits = line.credits();
    match push(rt, book, seat, channel, credits) {
        Told::Nothing => hear_or_rest(rt, outside, gate, book, seat, course, wire, line, heard),
        Told::Send(request) => send_and_hear(
            rt, outside, gate, book, seat, course, wire, line, &request,
        ),
        Told::Done => Some(Parted::Done),
        Told::Stop => Some(Parted::Stop),
        Told::Close => Some(Parted::Again),
        Told::Make { previous: _ } => Some(Parted::Again),
        Told::Bind {
            bound: _,
            number: _,
        } => Some(Parted::Again),
    }
}

/// A ready channel, until its link is left or every operation is settled.
pub(crate) fn run_line<W: Wait, N: Net, L: Link, G: Gate>(
    rt: &W,
    outside: &Outside<N>,
    gate: &G,
    book: &SharedBook<ClientTurns>,
    seat: &mut BookSeat<ClientTurns>,
    course: &mut Course,
    wire: &mut Wire<L>,
    mut line: Line,
) -> Parted
    requires own { IsSeatOf book.now seat.old }
    requires room { 0 < vec_len course.old.piece }
    ensures same { IsSameSeat seat.old seat.new }
    ensures kept { KeepsCourse course.old course.new }
    ensures runs { (a : Aimed)
        → Passes L.told L.given L.left L.written L.faults L.ended (G.bars gate.now) a course.old.channel
        (on (Runs line) wire.old.stream wire.old.link (view_of seat.old).own)
        (on Ends wire.new.stream wire.new.link (view_of seat.new).own) }
{
    for _ in rt.forever() {
        match push_on(rt, outside, gate, book, seat, course, wire, &mut line) {
            None => {}
            Some(parted) => return parted,
        }
    }
    unreachable!()
}
