//! Frames that come on a link.
ghost use Rattle.std.specs.Prelude.{◌<◌, ◌≡◌, length};
ghost use Rattle.client_channels.specs.channel_links.Coming.{Comes, ComesOrFeeds, Feeds, IsRefused, IsShort, NextComes};

use base_outside::{Failed, Link};
use std::sync::Wait;
use wire_bytes::{Bytes, Deframer, FrameError};

/// What comes next on a link.
#[derive(Drop)]
pub(crate) enum Came {
    /// A whole frame's message.
    Frame(Bytes),
    /// Nothing more: the peer has ended it, the link failed, or what came is no frame.
    Over,
    /// It found no memory.
    Lack,
}

/// No frame is as long as this, which the ends of a connection ask of one.
const TOO_LONG: usize = 0x1000_0000_0000_0000;

fn if_short(message: Bytes) -> Came
    ensures { IsShort message result }
{
    let short = message.len() < TOO_LONG;
    if short {
        Came::Frame(message)
    } else {
        Came::Lack
    }
}

/// It found no memory, or what came is no frame.
fn refused(refusal: FrameError) -> Came
    ensures { IsRefused refusal result }
{
    match refusal {
        FrameError::Memory => Came::Lack,
        FrameError::BadLead(_) => Came::Over,
        FrameError::TooLong(_) => Came::Over,
    }
}

/// The next whole frame of a stream; none, where more bytes are needed.
fn next_of(stream: &mut Deframer) -> Option<Came>
    ensures { NextComes stream.old stream.new result }
{
    match stream.next() {
        Ok(Some(frame)) => Some(if_short(frame.bytes)),
        Ok(None) => None,
        Err(refusal) => Some(refused(refusal)),
    }
}

/// Adds to a stream what the link gives next.
fn feed<L: Link>(link: &mut L, stream: &mut Deframer, piece: &mut [u8]) -> Option<Came>
    requires { 0 < length piece.old }
    ensures length { length piece.new ≡ length piece.old }
    ensures feeds { Feeds L.told L.given L.left L.written L.faults L.ended link.old stream.old link.new stream.new result }
{
    match link.read(piece) {
        Ok(0) => Some(Came::Over),
        Ok(count) => match stream.feed(&piece[..count]) {
            Ok(()) => None,
            Err(_) => Some(Came::Lack),
        },
        Err(Failed) => Some(Came::Over),
    }
}

/// What stands at the front of a stream, or what the link gives next.
fn next_or_feed<L: Link>(link: &mut L, stream: &mut Deframer, piece: &mut [u8]) -> Option<Came>
    requires { 0 < length piece.old }
    ensures length { length piece.new ≡ length piece.old }
    ensures comes { ComesOrFeeds L.told L.given L.left L.written L.faults L.ended link.old stream.old link.new stream.new result }
{
    match next_of(stream) {
        Some(came) => Some(came),
        None => feed(link, stream, piece),
    }
}

/// Waits for the next whole frame. `piece` is where a read puts what it takes.
pub(crate) fn take_frame<W: Wait, L: Link>(
    rt: &W,
    link: &mut L,
    stream: &mut Deframer,
    piece: &mut [u8],
) -> Came
    requires { 0 < length piece.old }
    ensures length { length piece.new ≡ length piece.old }
    ensures comes { Comes L.told L.given L.left L.written L.faults L.ended link.old stream.old link.new stream.new result }
{
    for _ in rt.forever() {
        match next_or_feed(link, stream, piece) {
            Some(came) => return came,
            None => {}
        }
    }
    unreachable!()
}
