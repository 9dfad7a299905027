// What carries the bytes of a link between two threads.
ghost use Rattle.std.specs.Prelude.{◌≡◌, ◌≤◌, ◌<◌, length};

use crate::network::mem_link::copy_front;
use std::alloc::{AllocError, Global};
use std::marker::Model;
use std::sync::{Condvar, Mutex, Wait};
use wire_bytes::Bytes;

/// One direction of a link: what was written and has yet to be read, and whether its writer is gone.
#[derive(Drop)]
struct Wire {
    bytes: Bytes,
    place: usize,
    is_shut: bool,
    ghost within: { place ≤ length bytes },
}

impl Wire {
    fn new(alloc: Global) -> Wire {
        Wire {
            bytes: Bytes::new(alloc),
            place: 0,
            is_shut: false,
        }
    }

    /// Whether a read needn't wait.
    fn is_ready(&self) -> bool {
        self.is_shut || self.place < self.bytes.len()
    }

    /// Moves bytes into the front of a buffer and says how many. The room of what was read is used
    /// again once all was read.
    fn take(&mut self, into: &mut [u8]) -> usize
        ensures { result ≤ length into.new }
    {
        let count = copy_front(&self.bytes.as_slice()[self.place..], into);
        self.place += count;
        if self.place == self.bytes.len() {
            self.bytes.truncate(0);
            self.place = 0;
        }
        count
    }

    fn put(&mut self, from: &[u8]) -> Result<(), AllocError> {
        self.bytes.extend(from)
    }
}

/// Which end of a link: the one that connected, or the one that was accepted.
#[derive(Clone, Copy, PartialEq, Eq, Debug)]
pub(crate) enum End {
    Connected,
    Accepted,
}

impl End {
    pub(crate) fn other(self) -> End {
        match self {
            End::Connected => End::Accepted,
            End::Accepted => End::Connected,
        }
    }
}

/// Both directions of a link, named by the end that writes.
#[derive(Drop)]
struct Wires {
    connected: Wire,
    accepted: Wire,
}

impl Wires {
    fn of(&self, writer: End) -> &Wire {
        match writer {
            End::Connected => &self.connected,
            End::Accepted => &self.accepted,
        }
    }

    fn of_mut(&mut self, writer: End) -> &mut Wire {
        match writer {
            End::Connected => &mut self.connected,
            End::Accepted => &mut self.accepted,
        }
    }
}

/// A link that two threads share.
#[derive(Drop)]
pub(crate) struct Lane {
    wires: Mutex<Wires>,
    // Both ends wait on this one, so all are woken: a single wake could go to the end that has nothing to read.
    moved: Condvar,
}

impl Lane {
    pub(crate) fn new(alloc: Global) -> Lane {
        let wires = Wires {
            connected: Wire::new(alloc),
            accepted: Wire::new(alloc),
        };
        Lane {
            wires: Mutex::new(wires),
            moved: Condvar::new(),
        }
    }

    /// Reads what the other end wrote, at an end. It waits until there is some, or the other end is gone.
    pub(crate) fn read<W: Wait>(&self, rt: &W, end: End, into: &mut [u8]) -> usize
        ensures { result ≤ length into.new }
    {
        if into.is_empty() {
            return 0;
        }
        let writer = end.other();
        let held = self.wires.lock(rt);
        let mut wires = self
            .moved
            .wait_while(rt, held, |wires| !wires.of(writer).is_ready());
        wires.of_mut(writer).take(into)
    }

    /// Writes at an end. Where the other end is gone nobody reads it.
    pub(crate) fn write<W: Wait>(&self, rt: &W, end: End, from: &[u8]) -> Result<(), AllocError> {
        let mut wires = self.wires.lock(rt);
        if !wires.of(end.other()).is_shut {
            wires.of_mut(end).put(from)?;
        }
        self.moved.notify_all();
        Ok(())
    }

    /// Tells the other end that this one is gone.
    pub(crate) fn shut<W: Wait>(&self, rt: &W, end: End) {
        let mut wires = self.wires.lock(rt);
        wires.of_mut(end).is_shut = true;
        self.moved.notify_all();
    }
}
