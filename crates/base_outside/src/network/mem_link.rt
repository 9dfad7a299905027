// A link in memory.
ghost use Rattle.std.specs.Prelude.{⊤, ◌≡◌, min, length, take};

use crate::network::Link;
use crate::network::end::is_end;
use crate::streams::{Failed, Plan};
use std::alloc::{AllocError, Global};
use std::marker::Model;
use wire_bytes::Bytes;

/// A link whose peer has sent all its bytes and ended, and which keeps what it takes. It fails where its
/// plan says so, and a write also where it has no room. A contract sees what reads gave, what they have
/// yet to give, what was written, whether a read gave the end, what is left of the plan and the count
/// of faults.
#[derive(Drop)]
pub struct MemLink {
    bytes: Bytes,
    place: usize,
    written: Bytes,
    ended: bool,
    plan: Plan,
    faults: u64,
}

impl Model for MemLink {
    ghost use Rattle.std.specs.Prelude.{◌≤◌, length, take, drop};
    ghost use Rattle.base_outside.specs.network.Memory.{LinkState};

    ghost Value = { LinkState };

    ghost view = { λ l. record {
      given = take l.place l.bytes;
      left = drop l.place l.bytes;
      written = l.written;
      ended = l.ended;
      failing = l.plan;
      faults = l.faults;
    } };

    ghost invariant = { λ l. l.place ≤ length l.bytes };
}

impl MemLink {
    ghost use Rattle.std.specs.Prelude.{◌≡◌, [], false, IsOkAnd};

    /// A link with these bytes left to read, whose call `k` fails where byte `k` of `failing` is 1.
    /// Calls past that list do not fail while there is memory. It always succeeds.
    pub fn new(alloc: Global, bytes: Bytes, failing: Bytes) -> Result<MemLink, AllocError>
        ensures { IsOkAnd result (λ l. l ≡ record {
          given = [];
          left = bytes;
          written = [];
          ended = false;
          failing = failing;
          faults = 0;
        }) }
    {
        Ok(MemLink {
            bytes,
            place: 0,
            written: Bytes::new(alloc),
            ended: false,
            plan: Plan::new(failing),
            faults: 0,
        })
    }

    /// The bytes that were written.
    pub fn written(&self) -> &[u8]
        ensures { result.now ≡ self.now.written }
    {
        self.written.as_slice()
    }
}

impl Link for MemLink {
    ghost use Rattle.std.specs.Prelude.{◌≡◌, ◌≤◌, ◌<◌, ◌↔◌, ◌++◌, min, length, take, drop, IsTrue, IsErr, IfOk, OnErr};
    ghost use Rattle.base_outside.specs.streams.Faults.{CountsFault};
    ghost use Rattle.base_outside.specs.streams.Memory.{next_fails};
    ghost use Rattle.base_outside.specs.network.Link.{LinkGives, ended_after, unnumbered};

    ghost told = { ⊤ };

    ghost number = { λ _. unnumbered };

    ghost given = { λ l. l.given };

    ghost left = { λ l. l.left };

    ghost written = { λ l. l.written };

    ghost ended = { λ l. l.ended };

    ghost faults = { λ l. l.faults };

    fn fault_count(&self) -> u64 {
        self.faults
    }

    fn read(&mut self, into: &mut [u8]) -> Result<usize, Failed>
        ensures bound { IfOk result (λ count. count ≤ length into.new) }
        ensures bytes { IfOk result (λ count. ⊤ → LinkGives self.old.left count into.new self.new.left) }
        ensures given { IfOk result (λ count. ⊤ → self.new.given ≡ self.old.given ++ take count into.new) }
        ensures failed { OnErr result (⊤ → (self.new.left ≡ self.old.left) × (self.new.given ≡ self.old.given)) }
        ensures written { ⊤ → self.new.written ≡ self.old.written }
        ensures number { unnumbered ≡ unnumbered }
        ensures end { self.new.ended ≡ ended_after self.old.ended result into.new }
        ensures cause { CountsFault self.old.faults self.new.faults result }
        ensures count { IfOk result (λ count. count ≡ min (length into.old) (length self.old.left)) }
        ensures which { IsErr result ↔ IsTrue (next_fails self.old.failing) }
        ensures plan { self.new.failing ≡ drop 1 self.old.failing }
    {
        if self.plan.next() {
            self.faults = self.faults.saturating_add(1);
            return Err(Failed);
        }
        let count = copy_front(&self.bytes.as_slice()[self.place..], into);
        self.ended = self.ended || is_end(count, into);
        self.place += count;
        Ok(count)
    }

    fn write(&mut self, from: &[u8]) -> Result<usize, Failed>
        ensures bound { IfOk result (λ count. count ≤ length from.now) }
        ensures progress { IfOk result (λ count. 0 < length from.now → 0 < count) }
        ensures bytes { IfOk result (λ count. ⊤ → self.new.written ≡ self.old.written ++ take count from.now) }
        ensures failed { OnErr result (⊤ → self.new.written ≡ self.old.written) }
        ensures given { ⊤ → (self.new.left ≡ self.old.left) × (self.new.given ≡ self.old.given) }
        ensures number { unnumbered ≡ unnumbered }
        ensures end { self.new.ended ≡ self.old.ended }
        ensures cause { CountsFault self.old.faults self.new.faults result }
        ensures count { IfOk result (λ count. count ≡ length from.now) }
        ensures which { IsTrue (next_fails self.old.failing) → IsErr result }
        ensures plan { self.new.failing ≡ drop 1 self.old.failing }
    {
        if self.plan.next() || self.written.extend(from).is_err() {
            self.faults = self.faults.saturating_add(1);
            return Err(Failed);
        }
        Ok(from.len())
    }
}

// Copies as much as fits of the front of `from`.
pub(crate) fn copy_front(from: &[u8], into: &mut [u8]) -> usize
    ensures count { result ≡ min (length into.old) (length from.now) }
    ensures front { take result into.new ≡ take result from.now }
    ensures length { length into.new ≡ length into.old }
{
    let count = into.len().min(from.len());
    into[..count].copy_from_slice(&from[..count]);
    count
}
