// A source in memory.
ghost use Rattle.std.specs.Prelude.{Some, ◌≡◌, min, length, take};

use crate::streams::plan::Plan;
use crate::streams::{Failed, Source};
use std::alloc::{AllocError, Global};
use std::marker::Model;
use wire_bytes::Bytes;

/// A source that holds its bytes and fails where its plan says so. A contract sees the bytes left,
/// what is left of the plan and the count of faults.
#[derive(Drop)]
pub struct MemSource {
    bytes: Bytes,
    place: usize,
    plan: Plan,
    faults: u64,
}

impl Model for MemSource {
    ghost use Rattle.std.specs.Prelude.{◌≤◌, length, drop};
    ghost use Rattle.base_outside.specs.streams.Memory.{SourceState};

    ghost Value = { SourceState };

    ghost view = { λ s. record { left = drop s.place s.bytes; failing = s.plan; faults = s.faults } };

    ghost invariant = { λ s. s.place ≤ length s.bytes };
}

impl MemSource {
    ghost use Rattle.std.specs.Prelude.{◌≡◌, IsOkAnd};

    /// A source of these bytes whose call `k` fails where byte `k` of `failing` is 1. Calls past
    /// that list do not fail. It always succeeds.
    pub fn new(_alloc: Global, bytes: Bytes, failing: Bytes) -> Result<MemSource, AllocError>
        ensures { IsOkAnd result (λ s. s ≡ record { left = bytes; failing = failing; faults = 0 }) }
    {
        Ok(MemSource {
            bytes,
            place: 0,
            plan: Plan::new(failing),
            faults: 0,
        })
    }
}

impl Source for MemSource {
    ghost use Rattle.std.specs.Prelude.{◌≡◌, ◌≤◌, ◌↔◌, min, length, drop, IsTrue, IsErr, IfOk};
    ghost use Rattle.std.specs.Io.KnownBytes.{ReadConsumes};
    ghost use Rattle.base_outside.specs.streams.Faults.{CountsFault};
    ghost use Rattle.base_outside.specs.streams.Memory.{next_fails};

    ghost left = { λ s. Some s.left };

    ghost faults = { λ s. s.faults };

    fn read(&mut self, into: &mut [u8]) -> Result<usize, Failed>
        ensures bound { IfOk result (λ count. count ≤ length into.new) }
        ensures bytes { ReadConsumes (Some self.old.left) (Some self.new.left) result into.new }
        ensures cause { CountsFault self.old.faults self.new.faults result }
        ensures count { IfOk result (λ count. count ≡ min (length into.old) (length self.old.left)) }
        ensures failed { IsErr result ↔ IsTrue (next_fails self.old.failing) }
        ensures plan { self.new.failing ≡ drop 1 self.old.failing }
    {
        if self.plan.next() {
            self.faults = self.faults.saturating_add(1);
            return Err(Failed);
        }
        let count = copy_front(&self.bytes.as_slice()[self.place..], into);
        self.place += count;
        Ok(count)
    }
}

// Copies as much as fits of the front of `from`.
pub(crate) fn copy_front(from: &[u8], into: &mut [u8]) -> usize
    ensures count { result ≡ min (length into.old) (length from.now) }
    ensures front { take result into.new ≡ take result from.now }
    ensures length { length into.new ≡ length into.old }
{
    let count = into.len().min(from.len());
    into[..count].copy_from_slice(&from[..count]);
    count
}
