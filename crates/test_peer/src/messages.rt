//! Whole messages on a link.
ghost use Rattle.std.specs.Prelude.{◌≤◌, length, IfSome};

use base_outside::Link;
use std::alloc::Global;
use wire_bytes::{Bytes, Deframer, frame_of};

/// The longest message of a frame.
const LONGEST: usize = 1_114_112;

/// How many reads a message may take.
const READS: u32 = 1_000;

/// A client's side of a link.
#[derive(Drop)]
pub(crate) struct Messages<L: Link + Drop> {
    alloc: Global,
    link: L,
    stream: Deframer,
}

fn short(message: Bytes) -> Option<Bytes>
    ensures { IfSome result (λ m. length m ≤ 1114112) }
{
    if message.len() > LONGEST {
        return None;
    }
    Some(message)
}

impl<L: Link + Drop> Messages<L> {
    ghost use Rattle.std.specs.Prelude.{◌≤◌, length, IfSome};

    pub(crate) fn new(alloc: Global, link: L) -> Messages<L> {
        Messages {
            alloc,
            link,
            stream: Deframer::new(alloc),
        }
    }

    /// Puts a message onto the link, which takes its frame at once.
    pub(crate) fn say(&mut self, message: &[u8]) -> Option<()> {
        let frame = frame_of(self.alloc, message).ok()?;
        let count = self.link.write(frame.as_slice()).ok()?;
        if count == frame.len() { Some(()) } else { None }
    }

    /// Adds to the stream what the link gives next.
    fn read(&mut self) -> Option<()> {
        let mut piece = [0u8; 4096];
        let count = self.link.read(&mut piece).ok()?;
        if count == 0 {
            return None;
        }
        self.stream.feed(&piece[..count]).ok()
    }

    /// The next message from the link.
    pub(crate) fn next(&mut self) -> Option<Bytes>
        ensures { IfSome result (λ m. length m ≤ 1114112) }
    {
        for _ in 0..READS {
            if let Some(frame) = self.stream.next().ok()? {
                return short(frame.bytes);
            }
            self.read()?;
        }
        None
    }
}
