ghost use Rattle.std.specs.Prelude.{◌≡◌, ◌+◌, ◌-◌, ◌<◌, ◌≤◌, ◌^◌, ◌++◌, [], List, ℕ, length, take, drop, replicate, IfOk, OnOk, OnErr};
ghost use Rattle.std.specs.Ordering.{nat_cmp};
ghost use Rattle.std.specs.BTreeMap.{get};
ghost use Rattle.spec_exchange.specs.Content.{ended, written};
ghost use Rattle.store_files.specs.file_extents.Kept.{IsContent, IsHeld};
ghost use Rattle.store_files.specs.file_extents.Ready.{IsPieceReady};

use crate::file_extents::cut::{remove_from, trim_last};
use crate::file_extents::put::{put_middle, put_part};
use crate::file_extents::seek::{covering, gap_end};
use crate::file_extents::write::{Prepared, mark, middle_of, plan_of};
use std::alloc::{AllocError, Global};
use std::collections::BTreeMap;

/// The bytes of a file: pieces by the place where each begins. Where none lies the bytes are 0.
#[derive(Drop)]
pub struct Extents {
    // Ordered, since each look-up asks for the piece at or before a place. Each piece is owned, because sharing would
    // look no different to a caller.
    pub(crate) pieces: BTreeMap<u64, Vec<u8>>,
    pub(crate) len: u64,
    held: u64,
    alloc: Global,
}

impl Extents {
    /// No bytes. It takes no memory.
    pub fn new(alloc: Global) -> Extents
        ensures empty { IsContent result [] }
        ensures held { IsHeld result 0 }
    {
        Extents {
            pieces: BTreeMap::new(alloc),
            len: 0,
            held: 0,
            alloc,
        }
    }

    /// The number of bytes.
    pub fn len(&self) -> u64
        ensures { (c : List ℕ) → IsContent self.now c → result ≡ length c }
    {
        self.len
    }

    /// The number of bytes of all pieces.
    pub fn held(&self) -> u64
        ensures { IsHeld self.now result }
    {
        self.held
    }

    /// The bytes from `at` on, as many as there are up to `count`.
    pub fn read(&self, at: u64, count: u64) -> Result<Vec<u8>, AllocError>
        ensures { IfOk result (λ v. (c : List ℕ) → IsContent self.now c → v.items ≡ take count (drop at c)) }
    {
        let mut out = Vec::new(self.alloc);
        if at >= self.len {
            return Ok(out);
        }
        let end = at + count.min(self.len - at);
        out.reserve((end - at) as usize)?;
        let mut place = at;
        while place < end {
            place = self.read_part(place, end, &mut out)?;
        }
        Ok(out)
    }

    /// Cuts the bytes or goes on with zeros, so that there are `n`. It takes no memory.
    pub fn set_end(&mut self, n: u64)
        ensures shown { (c : List ℕ) → IsContent self.old c → IsContent self.new (ended n c) }
        ensures held { (h : ℕ) → IsHeld self.old h → (k : ℕ) × (k ≤ h) × IsHeld self.new k }
    {
        // At once, since bytes of a piece past the end would come back when the file grows again.
        let removed = remove_from(&mut self.pieces, n);
        let trimmed = trim_last(&mut self.pieces, n);
        self.held = self.held.saturating_sub(removed).saturating_sub(trimmed);
        self.len = n;
    }

    /// Puts bytes at a place, with zeros before it where the file ends earlier. Where memory runs out the bytes stay.
    pub fn write(&mut self, at: u64, bytes: &[u8]) -> Result<(), AllocError>
        requires { at + length bytes.now < 2 ^ 64 }
        ensures ok { OnOk result ((c : List ℕ) → IsContent self.old c → IsContent self.new (written at bytes.now c)) }
        ensures err { OnErr result ((c : List ℕ) → IsContent self.old c → IsContent self.new c) }
        ensures held { (c : List ℕ) (h : ℕ) → IsContent self.old c → IsHeld self.old h
            → (k : ℕ) × (k ≤ h + length bytes.now) × IsHeld self.new k }
    {
        if bytes.is_empty() {
            return Ok(());
        }
        let prepared = self.prepare(at, bytes)?;
        self.finish(prepared, bytes);
        Ok(())
    }

    /// Takes the memory for a write, which `finish` then does without a failure. The bytes stay as they are.
    pub fn prepare(&mut self, at: u64, bytes: &[u8]) -> Result<Prepared, AllocError>
        requires { (0 < length bytes.now) × (at + length bytes.now < 2 ^ 64) }
        ensures same { (c : List ℕ) → IsContent self.old c → IsContent self.new c }
        ensures held { (h : ℕ) → IsHeld self.old h → IsHeld self.new h }
        ensures ready { IfOk result (λ p. (c : List ℕ) → IsContent self.old c → IsPieceReady self.new p at bytes.now) }
    {
        let end = at + bytes.len() as u64;
        let plan = plan_of(&self.pieces, at, end);
        // All memory is taken here, so that `finish` can follow the journal. An empty piece changes no byte, so it
        // may stay where the write is given up.
        let middle = middle_of(self.alloc, plan, at, bytes)?;
        mark(&mut self.pieces, plan, self.alloc)?;
        Ok(Prepared { plan, middle })
    }

    /// Does a prepared write. It takes no memory.
    pub fn finish(&mut self, prepared: Prepared, bytes: &[u8])
        ensures shown { (at : ℕ) (c : List ℕ) → IsPieceReady self.old prepared at bytes.now → IsContent self.old c
            → IsContent self.new (written at bytes.now c) }
        ensures held { (at h : ℕ) → IsPieceReady self.old prepared at bytes.now → IsHeld self.old h → (k : ℕ) × (k ≤ h + length bytes.now)
            × IsHeld self.new k }
    {
        let plan = prepared.plan;
        let added = prepared.middle.len() as u64;
        let removed = put_middle(&mut self.pieces, plan.from, plan.until, prepared.middle);
        put_part(&mut self.pieces, plan.left, bytes);
        put_part(&mut self.pieces, plan.right, bytes);
        self.held = self.held.saturating_sub(removed).saturating_add(added);
        self.len = self.len.max(plan.end);
    }

    // Appends the bytes from `at` on, up to `end` or where a piece begins or ends. Answers where it came to.
    fn read_part(&self, at: u64, end: u64, out: &mut Vec<u8>) -> Result<u64, AllocError>
        requires { (at < end) × (end ≤ self.now.len) }
        ensures goes { IfOk result (λ r. (at < r) × (r ≤ end)) }
        ensures bytes { IfOk result (λ r. (c : List ℕ) → IsContent self.now c
            → out.new.items ≡ out.old.items ++ take (r - at) (drop at c)) }
    {
        let Some((place, piece)) = covering(&self.pieces, at) else {
            let behind = gap_end(&self.pieces, at, end);
            add_zeros(out, (behind - at) as usize)?;
            return Ok(behind);
        };
        let offset = at - place;
        let count = (piece.len() as u64 - offset).min(end - at);
        out.extend_from_slice(&piece[offset as usize..(offset + count) as usize])?;
        Ok(at + count)
    }
}

// Zeros at the end.
fn add_zeros(bytes: &mut Vec<u8>, more: usize) -> Result<(), AllocError>
    ensures ok { OnOk result (bytes.new.items ≡ bytes.old.items ++ replicate more 0) }
{
    bytes.reserve(more)?;
    let len = bytes.len();
    let end = len + more;
    bytes.resize(end, 0)
}
