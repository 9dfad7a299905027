// A disk in memory with a draft beside it.
ghost use Rattle.std.specs.Prelude.{◌≡◌, ◌⊎◌, ◌↔◌, ℕ, ◌≤◌, List, [], ◌++◌, length, drop, IsTrue, refl, IfOk, OnErr, IsErr};
ghost use Rattle.base_outside.specs.declared.streams.room.DiskStep.TheVariants as steps;
ghost use Rattle.base_outside.specs.streams.Disk.{Elapses, Only};
ghost use Rattle.base_outside.specs.streams.Steps.{IfDone, IfNoRoom};
ghost use Rattle.base_outside.specs.streams.Faults.{CountsFault};
ghost use Rattle.base_outside.specs.streams.Memory.{next_fails};

use crate::streams::mem_disk::MemDisk;
use crate::streams::renewal::Renewal;
use crate::streams::{Disk, DiskStep, Failed, TellsRoom};
use std::alloc::Global;
use std::marker::Model;

/// A disk in memory that may be written anew. Each of its calls fails where the disk's plan says so. A draft of more bytes than `room`, or
/// for which there is no memory, finds no room. Each call is done at once or, where it fails, not at all.
#[derive(Drop)]
pub struct MemRenewal {
    disk: MemDisk,
    draft: Vec<u8>,
    room: u64,
}

impl Model for MemRenewal {
    ghost use Rattle.base_outside.specs.streams.Drafts.{RenewalState};

    ghost Value = { RenewalState };

    ghost view = { λ d. record {
      bytes = d.disk.bytes;
      draft = d.draft.items;
      room = d.room;
      failing = d.disk.failing;
      faults = d.disk.faults;
    } };
}

impl MemRenewal {
    ghost use Rattle.std.specs.Prelude.{◌≡◌, [], length, take};

    /// A disk with drafts of at most so many bytes, and no draft yet.
    pub fn new(alloc: Global, disk: MemDisk, room: u64) -> MemRenewal
        ensures { result ≡ record { bytes = disk.bytes; draft = []; room = room; failing = disk.failing; faults = disk.faults } }
    {
        MemRenewal {
            disk,
            draft: Vec::new(alloc),
            room,
        }
    }

    /// The bytes that it holds.
    pub fn bytes(&self) -> &[u8]
        ensures { result.now ≡ self.now.bytes }
    {
        self.disk.bytes()
    }

    /// The bytes of the draft.
    pub fn draft(&self) -> &[u8]
        ensures { result.now ≡ self.now.draft }
    {
        self.draft.as_slice()
    }
}

impl Disk for MemRenewal {
    ghost told = { Unit {0} };

    ghost seen = { λ d. d.bytes };

    ghost may_leave = { λ d c. c ≡ d.bytes };

    ghost moment = { λ _. 0 };

    ghost left_since = { λ d _ c. c ≡ d.bytes };

    ghost faults = { λ d. d.faults };

    ghost counts_now = { λ _ _ _ _ now. now };

    ghost only_now = { λ _ _ left. left };

    ghost seen_may_stay = { λ _ _. refl };

    fn fault_count(&self) -> u64 {
        self.disk.fault_count()
    }

    fn length(&mut self) -> Result<u64, Failed> {
        self.disk.length()
    }

    fn read(&mut self, at: u64, into: &mut [u8]) -> Result<usize, Failed> {
        self.disk.read(at, into)
    }

    fn write_at(&mut self, at: u64, from: &[u8]) -> Result<(), Failed> {
        self.disk.write_at(at, from)
    }

    fn cut(&mut self, length: u64) -> Result<(), Failed> {
        self.disk.cut(length)
    }

    fn sync(&mut self) -> Result<(), Failed> {
        self.disk.sync()
    }
}

impl TellsRoom for MemRenewal {
    fn write_if_room(&mut self, at: u64, from: &[u8]) -> Result<DiskStep, Failed> {
        self.disk.write_if_room(at, from)
    }
}

impl Renewal for MemRenewal {
    ghost drafted = { λ d. d.draft };

    fn begin_draft(&mut self) -> Result<DiskStep, Failed>
        ensures begun { IfDone result (self.new.draft ≡ []) }
        ensures answer { IfOk result (λ step. step ≡ steps.Done) }
        ensures failed { IsErr result ↔ IsTrue (next_fails self.old.failing) }
        ensures seen { self.new.bytes ≡ self.old.bytes }
        ensures time { Elapses 0 0 (λ _ c. c ≡ self.old.bytes) (λ _ c. c ≡ self.new.bytes) (λ c. c ≡ self.new.bytes) }
        ensures cause { CountsFault self.old.faults self.new.faults result }
        ensures plan { self.new.failing ≡ drop 1 self.old.failing }
        ensures room { self.new.room ≡ self.old.room }
    {
        if self.disk.fails() {
            return Err(Failed);
        }
        self.draft.clear();
        Ok(DiskStep::Done)
    }

    fn put_draft(&mut self, from: &[u8]) -> Result<DiskStep, Failed>
        ensures put { IfDone result (self.new.draft ≡ self.old.draft ++ from.now) }
        ensures given_up { IfNoRoom result (self.new.draft ≡ []) }
        ensures within { IfDone result (length self.new.draft ≤ self.old.room) }
        ensures failed { IsErr result ↔ IsTrue (next_fails self.old.failing) }
        ensures seen { self.new.bytes ≡ self.old.bytes }
        ensures time { Elapses 0 0 (λ _ c. c ≡ self.old.bytes) (λ _ c. c ≡ self.new.bytes) (λ c. c ≡ self.new.bytes) }
        ensures cause { CountsFault self.old.faults self.new.faults result }
        ensures plan { self.new.failing ≡ drop 1 self.old.failing }
        ensures room { self.new.room ≡ self.old.room }
    {
        if self.disk.fails() {
            return Err(Failed);
        }
        let whole = (self.draft.len() as u64).saturating_add(from.len() as u64);
        if whole > self.room {
            self.draft.clear();
            return Ok(DiskStep::NoRoom);
        }
        match self.draft.extend_from_slice(from) {
            Ok(()) => Ok(DiskStep::Done),
            Err(_) => {
                self.draft.clear();
                Ok(DiskStep::NoRoom)
            }
        }
    }

    fn adopt(&mut self) -> Result<DiskStep, Failed>
        ensures adopted { IfDone result ((self.new.bytes ≡ self.old.draft) × Only self.new.bytes (λ c. c ≡ self.new.bytes)) }
        ensures answer { IfOk result (λ step. step ≡ steps.Done) }
        ensures kept { OnErr result (self.new.bytes ≡ self.old.bytes) }
        ensures failed { IsErr result ↔ IsTrue (next_fails self.old.failing) }
        ensures given_up { IfNoRoom result ((self.new.bytes ≡ self.old.bytes) × ((c : List ℕ) → c ≡ self.new.bytes → c ≡ self.old.bytes)) }
        ensures seen { (self.new.bytes ≡ self.old.bytes) ⊎ (self.new.bytes ≡ self.old.draft) }
        ensures crash { (c : List ℕ) → c ≡ self.new.bytes → (c ≡ self.old.bytes) ⊎ (c ≡ self.old.draft) }
        ensures time { Elapses 0 0 (λ _ c. c ≡ self.old.bytes) (λ _ c. c ≡ self.new.bytes) (λ c. c ≡ self.new.bytes) }
        ensures cause { CountsFault self.old.faults self.new.faults result }
        ensures plan { self.new.failing ≡ drop 1 self.old.failing }
        ensures room { self.new.room ≡ self.old.room }
    {
        if self.disk.fails() {
            return Err(Failed);
        }
        self.disk.exchange(&mut self.draft);
        self.draft.clear();
        Ok(DiskStep::Done)
    }
}
