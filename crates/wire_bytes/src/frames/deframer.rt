ghost use Rattle.wire_bytes.specs.frames.Next.{FirstIs};

use crate::byte_lists::Bytes;
use crate::frames::front::front_of;
use crate::frames::long::long_at;
use spec_wire::FrameError;
use std::alloc::{AllocError, Global};
use std::marker::Model;
use std::mem;

/// A frame's message, which may be empty.
#[derive(Drop, Debug)]
pub struct Frame {
    pub bytes: Bytes,
}

// The message at the front of a stream, if it is whole.
fn first_of(alloc: Global, stream: &[u8]) -> Result<Option<Frame>, FrameError>
    ensures { FirstIs stream.now result }
{
    match front_of(stream) {
        Err(error) => Err(error),
        Ok(None) => Ok(None),
        Ok(Some(length)) => {
            let bytes = Bytes::from_slice(alloc, &stream[4..4 + length])?;
            Ok(Some(Frame { bytes }))
        }
    }
}

/// Takes frames out of pieces of a stream. A contract sees the bytes that were fed and not handed out.
#[derive(Drop)]
pub struct Deframer {
    alloc: Global,
    /// The first four bytes of a long frame that wasn't whole when a piece of it came, else nothing.
    head: Vec<u8>,
    /// What came of its message: in a vector as long as the message, which is handed out as it is.
    long: Vec<u8>,
    /// How many bytes of it haven't come.
    missing: usize,
    /// All else that was fed, behind that frame.
    bytes: Vec<u8>,
    /// How many of these were handed out.
    at: usize,
}

impl Model for Deframer {
    ghost use Rattle.std.specs.Prelude.{List, ℕ, ◌≤◌, ◌++◌, length, drop};
    ghost use Rattle.wire_bytes.specs.frames.Long.{Gathers};

    ghost Value = { List ℕ };

    ghost view = { λ d. (d.head.items ++ d.long.items) ++ drop d.at d.bytes.items };

    ghost invariant = { λ d. (d.at ≤ length d.bytes.items) × Gathers d.head.items d.long.items d.missing (drop d.at d.bytes.items) };
}

impl Deframer {
    ghost use Rattle.std.specs.Prelude.{◌≡◌, [], ◌++◌, OnOk, OnErr};
    ghost use Rattle.wire_bytes.specs.frames.Next.{FrameNextAnswers};

    /// Nothing was fed. It takes no memory.
    pub fn new(alloc: Global) -> Deframer
        ensures { result ≡ [] }
    {
        Deframer {
            alloc,
            head: Vec::new(alloc),
            long: Vec::new(alloc),
            missing: 0,
            bytes: Vec::new(alloc),
            at: 0,
        }
    }

    // Lets the bytes go that were handed out, once they are more than the half: so each byte is moved
    // at most once for one that goes.
    fn let_go(&mut self)
        ensures { self.new ≡ self.old }
    {
        if self.at > self.bytes.len() / 2 {
            self.bytes.drain(..self.at);
            self.at = 0;
        }
    }

    // Adds a piece: to a long frame what is missing of it, the rest behind it.
    fn add(&mut self, piece: &[u8]) -> Result<(), AllocError>
        ensures ok { OnOk result (self.new ≡ self.old ++ piece.now) }
        ensures err { OnErr result (self.new ≡ self.old) }
    {
        let own = self.missing.min(piece.len());
        self.long.extend_from_slice(&piece[..own])?;
        match self.bytes.extend_from_slice(&piece[own..]) {
            Ok(()) => {
                self.missing -= own;
                Ok(())
            }
            Err(AllocError) => {
                let length = self.long.len();
                self.long.truncate(length - own);
                Err(AllocError)
            }
        }
    }

    // Gathers the message of a long frame, of which a part has come, apart. Where memory runs out it stays where it is.
    fn gather(&mut self)
        ensures { self.new ≡ self.old }
    {
        if !self.head.is_empty() {
            return;
        }
        let Some(length) = long_at(&self.bytes[self.at..]) else {
            return;
        };
        let start = self.at + 4;
        let Ok(head) = Vec::from_slice(self.alloc, &self.bytes[self.at..start]) else {
            return;
        };
        let Ok(mut long) = Vec::with_capacity(self.alloc, length) else {
            return;
        };
        let Ok(()) = long.extend_from_slice(&self.bytes[start..]) else {
            return;
        };
        self.missing = length - long.len();
        self.head = head;
        self.long = long;
        self.bytes.clear();
        self.at = 0;
    }

    /// Adds a piece at the end. Where memory runs out nothing changes.
    pub fn feed(&mut self, piece: &[u8]) -> Result<(), AllocError>
        ensures ok { OnOk result (self.new ≡ self.old ++ piece.now) }
        ensures err { OnErr result (self.new ≡ self.old) }
    {
        self.let_go();
        match self.add(piece) {
            Ok(()) => {
                self.gather();
                Ok(())
            }
            Err(AllocError) => Err(AllocError),
        }
    }

    /// The next whole frame; `None` where more bytes are needed. `BadLead` has a first byte that isn't 0,
    /// and `TooLong` a length above 1,114,112, told once 4 bytes are there. Each refusal, and `None`,
    /// leaves the bytes, so a refusal is told again from then on.
    pub fn next(&mut self) -> Result<Option<Frame>, FrameError>
        ensures { FrameNextAnswers self.old self.new result }
    {
        if !self.head.is_empty() {
            if self.missing > 0 {
                return Ok(None);
            }
            self.head.clear();
            let long = mem::replace(&mut self.long, Vec::new(self.alloc));
            return Ok(Some(Frame {
                bytes: Bytes::from_vec(long),
            }));
        }
        // Copied before the place moves on: where memory runs out the frame is still there.
        match first_of(self.alloc, &self.bytes[self.at..]) {
            Err(error) => Err(error),
            Ok(None) => Ok(None),
            Ok(Some(frame)) => {
                self.at += 4 + frame.bytes.len();
                Ok(Some(frame))
            }
        }
    }
}
