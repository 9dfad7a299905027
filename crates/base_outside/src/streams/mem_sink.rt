// A sink in memory.
ghost use Rattle.std.specs.Prelude.{Some};

use crate::streams::plan::Plan;
use crate::streams::{Failed, Sink};
use std::alloc::{AllocError, Global};
use std::marker::Model;
use wire_bytes::Bytes;

/// A sink that keeps its bytes and fails where its plan says so, or where it has no room. A contract
/// sees the bytes written, what is left of the plan and the count of faults.
#[derive(Drop)]
pub struct MemSink {
    bytes: Bytes,
    plan: Plan,
    faults: u64,
}

impl Model for MemSink {
    ghost use Rattle.base_outside.specs.streams.Memory.{SinkState};

    ghost Value = { SinkState };

    ghost view = { λ s. record { written = s.bytes; failing = s.plan; faults = s.faults } };
}

impl MemSink {
    ghost use Rattle.std.specs.Prelude.{◌≡◌, [], IsOkAnd};

    /// An empty sink whose call `k` fails where byte `k` of `failing` is 1. Calls past that list do
    /// not fail while there is memory. It always succeeds.
    pub fn new(alloc: Global, failing: Bytes) -> Result<MemSink, AllocError>
        ensures { IsOkAnd result (λ s. s ≡ record { written = []; failing = failing; faults = 0 }) }
    {
        Ok(MemSink {
            bytes: Bytes::new(alloc),
            plan: Plan::new(failing),
            faults: 0,
        })
    }

    /// The bytes that were written.
    pub fn bytes(&self) -> &[u8]
        ensures { result.now ≡ self.now.written }
    {
        self.bytes.as_slice()
    }
}

impl Sink for MemSink {
    ghost use Rattle.std.specs.Prelude.{◌≡◌, ◌≤◌, ◌<◌, length, drop, IsTrue, IsErr, IfOk};
    ghost use Rattle.std.specs.Io.KnownBytes.{WriteAppends};
    ghost use Rattle.base_outside.specs.streams.Faults.{CountsFault};
    ghost use Rattle.base_outside.specs.streams.Memory.{next_fails};

    ghost written = { λ s. Some s.written };

    ghost faults = { λ s. s.faults };

    fn write(&mut self, from: &[u8]) -> Result<usize, Failed>
        ensures bound { IfOk result (λ count. count ≤ length from.now) }
        ensures progress { IfOk result (λ count. 0 < length from.now → 0 < count) }
        ensures bytes { WriteAppends (Some self.old.written) (Some self.new.written) result from.now }
        ensures cause { CountsFault self.old.faults self.new.faults result }
        ensures count { IfOk result (λ count. count ≡ length from.now) }
        ensures failed { IsTrue (next_fails self.old.failing) → IsErr result }
        ensures plan { self.new.failing ≡ drop 1 self.old.failing }
    {
        if self.plan.next() || self.bytes.extend(from).is_err() {
            self.faults = self.faults.saturating_add(1);
            return Err(Failed);
        }
        Ok(from.len())
    }
}
