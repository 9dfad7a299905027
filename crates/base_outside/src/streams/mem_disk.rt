// A disk in memory.
ghost use Rattle.std.specs.Prelude.{◌≡◌, ◌↔◌, ◌+◌, ◌-◌, ◌≤◌, ◌++◌, min, length, take, drop, replicate, IsTrue, IsErr};
ghost use Rattle.std.specs.Prelude.{IfOk, OnOk, OnErr, refl};
ghost use Rattle.base_outside.specs.streams.Disk.{ReadsAt, WritesAt, Torn, CutShort, Follows, Elapses};
ghost use Rattle.base_outside.specs.streams.Faults.{CountsFault, CountsWhere};
ghost use Rattle.base_outside.specs.streams.Memory.{next_fails};
ghost use Rattle.base_outside.specs.streams.Steps.{IfDone, IfNoRoom};

use crate::streams::mem_source::copy_front;
use crate::streams::plan::Plan;
use crate::streams::{Disk, DiskStep, Failed, TellsRoom};
use std::alloc::{AllocError, Global};
use std::marker::Model;
use wire_bytes::Bytes;

/// A disk that holds its bytes and fails where its plan says so, or where it has no room. Each call is
/// done at once or, where it fails, not at all. A contract sees the bytes, what is left of the plan and
/// the count of faults.
#[derive(Drop)]
pub struct MemDisk {
    bytes: Vec<u8>,
    plan: Plan,
    faults: u64,
}

impl Model for MemDisk {
    ghost use Rattle.base_outside.specs.streams.Memory.{DiskState};

    ghost Value = { DiskState };

    ghost view = { λ d. record { bytes = d.bytes.items; failing = d.plan; faults = d.faults } };
}

impl MemDisk {
    ghost use Rattle.std.specs.Prelude.{◌≡◌, IsOkAnd};

    /// A disk of these bytes whose call `k` fails where byte `k` of `failing` is 1. Calls past that
    /// list do not fail while there is memory. It always succeeds.
    pub fn new(_alloc: Global, bytes: Bytes, failing: Bytes) -> Result<MemDisk, AllocError>
        ensures { IsOkAnd result (λ d. d ≡ record { bytes = bytes; failing = failing; faults = 0 }) }
    {
        Ok(MemDisk {
            bytes: bytes.into_vec(),
            plan: Plan::new(failing),
            faults: 0,
        })
    }

    /// The bytes that it holds.
    pub fn bytes(&self) -> &[u8]
        ensures { result.now ≡ self.now.bytes }
    {
        self.bytes.as_slice()
    }
}

// Zeros at the end, or no change where there is no room.
#[tactic(auto, using(crate::proofs::streams::Written::zeros))]
fn lengthen(bytes: &mut Vec<u8>, more: usize) -> Result<(), Failed>
    ensures ok { OnOk result (bytes.new.items ≡ bytes.old.items ++ replicate more 0) }
    ensures err { OnErr result (bytes.new.items ≡ bytes.old.items) }
{
    let len = bytes.len();
    let Some(end) = len.checked_add(more) else {
        return Err(Failed);
    };
    match bytes.resize(end, 0) {
        Ok(()) => Ok(()),
        Err(_) => Err(Failed),
    }
}

fn overwrite(bytes: &mut [u8], at: usize, from: &[u8])
    requires { at + length from.now ≤ length bytes.old }
    ensures { bytes.new ≡ take at bytes.old ++ (from.now ++ drop (at + length from.now) bytes.old) }
{
    bytes[at..at + from.len()].copy_from_slice(from);
}

// Puts a piece into the bytes at a place, or changes nothing where there is no room.
fn put(bytes: &mut Vec<u8>, at: u64, from: &[u8]) -> Result<(), Failed>
    ensures ok { OnOk result (WritesAt bytes.old.items at from.now bytes.new.items) }
    ensures err { OnErr result (bytes.new.items ≡ bytes.old.items) }
{
    if from.is_empty() {
        return Ok(());
    }
    let at = at as usize;
    let Some(end) = at.checked_add(from.len()) else {
        return Err(Failed);
    };
    lengthen(bytes, end.saturating_sub(bytes.len()))?;
    overwrite(bytes, at, from);
    Ok(())
}

// What stands at a place and behind it, as much as fits.
fn get(bytes: &[u8], at: u64, into: &mut [u8]) -> usize
    ensures count { result ≡ min (length into.old) (length bytes.now - at) }
    ensures front { take result into.new ≡ take result (drop at bytes.now) }
    ensures length { length into.new ≡ length into.old }
{
    let at = (at as usize).min(bytes.len());
    copy_front(&bytes[at..], into)
}

impl MemDisk {
    // Whether the next call fails by the plan, which is counted.
    pub(crate) fn fails(&mut self) -> bool
        ensures fails { result ≡ next_fails self.old.failing }
        ensures rest { self.new.failing ≡ drop 1 self.old.failing }
        ensures bytes { self.new.bytes ≡ self.old.bytes }
        ensures count { CountsWhere result self.old.faults self.new.faults }
    {
        let fails = self.plan.next();
        if fails {
            self.faults = self.faults.saturating_add(1);
        }
        fails
    }
}

impl MemDisk {
    // Takes these bytes in place of its own, and gives its own for them.
    pub(crate) fn exchange(&mut self, bytes: &mut Vec<u8>)
        ensures own { self.new ≡ record self.old { bytes = bytes.old.items } }
        ensures given { bytes.new.items ≡ self.old.bytes }
    {
        std::mem::swap(&mut self.bytes, bytes);
    }
}

impl Disk for MemDisk {
    ghost told = { Unit {0} };

    ghost seen = { λ d. d.bytes };

    ghost may_leave = { λ d c. c ≡ d.bytes };

    ghost moment = { λ _. 0 };

    ghost left_since = { λ d _ c. c ≡ d.bytes };

    ghost faults = { λ d. d.faults };

    ghost counts_now = { λ _ _ _ _ now. now };

    ghost only_now = { λ _ _ left. left };

    ghost seen_may_stay = { λ _ _. refl };

    fn fault_count(&self) -> u64 {
        self.faults
    }

    fn length(&mut self) -> Result<u64, Failed>
        ensures value { IfOk result (λ count. count ≡ length self.old.bytes) }
        ensures failed { IsErr result ↔ IsTrue (next_fails self.old.failing) }
        ensures seen { self.new.bytes ≡ self.old.bytes }
        ensures time { Elapses 0 0 (λ _ c. c ≡ self.old.bytes) (λ _ c. c ≡ self.new.bytes) (λ c. c ≡ self.new.bytes) }
        ensures cause { CountsFault self.old.faults self.new.faults result }
        ensures plan { self.new.failing ≡ drop 1 self.old.failing }
    {
        if self.fails() {
            return Err(Failed);
        }
        Ok(self.bytes.len() as u64)
    }

    fn read(&mut self, at: u64, into: &mut [u8]) -> Result<usize, Failed>
        ensures bound { IfOk result (λ count. count ≤ length into.new) }
        ensures count { IfOk result (λ count. count ≡ min (length into.old) (length self.old.bytes - at)) }
        ensures bytes { IfOk result (λ count. ReadsAt self.old.bytes at count into.new) }
        ensures failed { IsErr result ↔ IsTrue (next_fails self.old.failing) }
        ensures seen { self.new.bytes ≡ self.old.bytes }
        ensures time { Elapses 0 0 (λ _ c. c ≡ self.old.bytes) (λ _ c. c ≡ self.new.bytes) (λ c. c ≡ self.new.bytes) }
        ensures cause { CountsFault self.old.faults self.new.faults result }
        ensures plan { self.new.failing ≡ drop 1 self.old.failing }
    {
        if self.fails() {
            return Err(Failed);
        }
        Ok(get(&self.bytes, at, into))
    }

    fn write_at(&mut self, at: u64, from: &[u8]) -> Result<(), Failed>
        ensures written { OnOk result (WritesAt self.old.bytes at from.now self.new.bytes) }
        ensures kept { OnErr result (self.new.bytes ≡ self.old.bytes) }
        ensures failed { IsTrue (next_fails self.old.failing) → IsErr result }
        ensures crash { Follows (Torn at (length from.now)) (λ c. c ≡ self.old.bytes) (λ c. c ≡ self.new.bytes) }
        ensures time { Elapses 0 0 (λ _ c. c ≡ self.old.bytes) (λ _ c. c ≡ self.new.bytes) (λ c. c ≡ self.new.bytes) }
        ensures cause { CountsFault self.old.faults self.new.faults result }
        ensures plan { self.new.failing ≡ drop 1 self.old.failing }
    {
        if self.fails() {
            return Err(Failed);
        }
        if put(&mut self.bytes, at, from).is_err() {
            self.faults = self.faults.saturating_add(1);
            return Err(Failed);
        }
        Ok(())
    }

    fn cut(&mut self, length: u64) -> Result<(), Failed>
        ensures cut { OnOk result (self.new.bytes ≡ take length self.old.bytes) }
        ensures kept { OnErr result (self.new.bytes ≡ self.old.bytes) }
        ensures failed { IsErr result ↔ IsTrue (next_fails self.old.failing) }
        ensures crash { Follows (CutShort length) (λ c. c ≡ self.old.bytes) (λ c. c ≡ self.new.bytes) }
        ensures time { Elapses 0 0 (λ _ c. c ≡ self.old.bytes) (λ _ c. c ≡ self.new.bytes) (λ c. c ≡ self.new.bytes) }
        ensures cause { CountsFault self.old.faults self.new.faults result }
        ensures plan { self.new.failing ≡ drop 1 self.old.failing }
    {
        if self.fails() {
            return Err(Failed);
        }
        self.bytes.truncate(length as usize);
        Ok(())
    }

    fn sync(&mut self) -> Result<(), Failed>
        ensures failed { IsErr result ↔ IsTrue (next_fails self.old.failing) }
        ensures seen { self.new.bytes ≡ self.old.bytes }
        ensures time { Elapses 0 0 (λ _ c. c ≡ self.old.bytes) (λ _ c. c ≡ self.new.bytes) (λ c. c ≡ self.new.bytes) }
        ensures cause { CountsFault self.old.faults self.new.faults result }
        ensures plan { self.new.failing ≡ drop 1 self.old.failing }
    {
        if self.fails() {
            return Err(Failed);
        }
        Ok(())
    }
}

impl TellsRoom for MemDisk {
    fn write_if_room(&mut self, at: u64, from: &[u8]) -> Result<DiskStep, Failed>
        ensures written { IfDone result (WritesAt self.old.bytes at from.now self.new.bytes) }
        ensures part { IfNoRoom result (Torn at (length from.now) self.old.bytes self.new.bytes) }
        ensures kept { IfNoRoom result (self.new.bytes ≡ self.old.bytes) }
        ensures failed { IsErr result ↔ IsTrue (next_fails self.old.failing) }
        ensures crash { Follows (Torn at (length from.now)) (λ c. c ≡ self.old.bytes) (λ c. c ≡ self.new.bytes) }
        ensures time { Elapses 0 0 (λ _ c. c ≡ self.old.bytes) (λ _ c. c ≡ self.new.bytes) (λ c. c ≡ self.new.bytes) }
        ensures cause { CountsFault self.old.faults self.new.faults result }
        ensures plan { self.new.failing ≡ drop 1 self.old.failing }
    {
        if self.fails() {
            return Err(Failed);
        }
        match put(&mut self.bytes, at, from) {
            Ok(()) => Ok(DiskStep::Done),
            Err(_) => Ok(DiskStep::NoRoom),
        }
    }
}
