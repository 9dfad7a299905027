// The journal.
ghost use Rattle.std.specs.Prelude.{◌≡◌, ◌⊎◌, ℕ, ◌+◌, ◌-◌, ◌≤◌, ◌<◌, ◌^◌, List, [], ◌∷◌, ◌++◌, length, IfOk, IsTrue, None, OnOk, OnErr, MatchOption, vec_capacity};
ghost use Rattle.spec_wire.specs.messages.Places.{le};
ghost use Rattle.spec_journal.specs.Castagnoli.{crc32c};
ghost use Rattle.spec_journal.specs.declared.form.Form.TheVariants as forms;
ghost use Rattle.spec_journal.specs.Forms.{BreaksAt, form_entry, form_sum, StandsFor};
ghost use Rattle.spec_wire.specs.journal.Moments.{LeavesOnly, Quiet};
ghost use Rattle.journal.specs.disk_journal.Entry.{IsEntryNew};
ghost use Rattle.journal.specs.disk_journal.Journal.{JournalState, JournalSettled, JournalWaits, JournalAdmits};
ghost use Rattle.journal.specs.disk_journal.Journal.{Appends, Reserves, Settles, StageAnswers, TakesAhead};
ghost use Rattle.journal.specs.disk_journal.Journal.{JournalCreates, JournalRecovers, disk_behind};
ghost use Rattle.journal.specs.disk_journal.Journal.{HandsOut, JournalNextAnswers, HandsOutRest, RestAnswers, HandsOutAll};
ghost use Rattle.journal.specs.disk_journal.Journal.{AllAnswers, BeforeOrAfter};
ghost use Rattle.journal.specs.disk_journal.Rewrite.{IsDrafted, RewriteBegins, RewritePuts, RewriteEnds};
ghost use Rattle.base_outside.specs.streams.Steps.{IfDone, IfNoRoom};

use crate::checksum::{Sum, sums_law};
use crate::disk_journal::ahead::{fill_ahead, make_zeros};
use crate::disk_journal::form::sum_bytes;
use crate::disk_journal::list::BytesList;
use crate::disk_journal::read::{Found, NoBody, read_body};
use crate::disk_journal::rewrite::{
    Rewrite, begin_marked, close_and_adopt, fill_opened, put_quiet,
};
use crate::disk_journal::waiting::{add_entry, open_waiting, put_entry};
use crate::disk_journal::{prepare, repair};
use base_outside::{Disk, DiskStep, Renewal, TellsRoom};
use spec_journal::Form;
use std::alloc::{AllocError, Global};
use std::marker::Model;
use thiserror::Error;
use wire_bytes::Bytes;

// Entries that begin no epoch leave this much of the journal free.
// So a server whose journal is full can still start: each start adds an epoch, and the marks of directories that it clears,
// at most 2 MB of which stand behind the limit of all else.
const EPOCH_ROOM: u64 = 134_217_728;

const LIMIT: u64 = 1_073_741_824;

// A gate behind, and a length in front. Checksums aren't counted: so both forms have room for the same bodies.
const AROUND: u64 = 5;

// The same with a checksum.
const AROUND_SUMMED: u64 = 9;

// The most bytes around a body, a checksum among them.
const MOST_AROUND: usize = 9;

/// Why a call of the journal was refused.
#[derive(Clone, Copy, PartialEq, Eq, Debug, Drop, Error)]
pub enum JournalError {
    #[error("memory ran out")]
    Memory,
    #[error("the disk failed, and its count of faults is now {0}")]
    DiskFault(u64),
    #[error("the disk holds no journal: its bytes break the grammar at byte {0}")]
    NotAJournal(u64),
    #[error("the journal would use {0} bytes, and its limit is {1}")]
    Full(u64, u64),
    #[error("the journal stopped when the disk failed, at a count of {0} faults")]
    Stopped(u64),
}

impl From<AllocError> for JournalError {
    ghost use Rattle.std.specs.Prelude.{◌≡◌};
    ghost use Rattle.journal.specs.declared.disk_journal.journal.JournalError.TheVariants.{Memory};

    ghost from_gives = { λ _ e. e ≡ Memory };

    fn from(_: AllocError) -> Self {
        JournalError::Memory
    }
}

/// Why no journal was made of a disk, and the disk as it was left.
#[derive(Drop)]
pub struct RefusedStart<D> {
    pub cause: JournalError,
    pub disk: D,
}

/// A journal on a disk. A contract sees the disk, the journal's form, where it ends and how many bytes it uses
/// but for checksums, how many bodies stand in it, how many of them were handed out and where the next one's
/// gate stands, the disk's count of faults at which it stopped, and how many bytes of an entry it has room for
/// without more memory, but for a checksum.
#[derive(Drop)]
pub struct Journal<D: Disk> {
    alloc: Global,
    disk: D,
    form: Form,
    gate: u64,
    used: u64,
    count: u64,
    next: u64,
    taken: u64,
    waits: Option<u64>,
    stopped: Option<u64>,
    buffer: Vec<u8>,
}

impl<D: Disk> Model for Journal<D> {
    ghost use Rattle.std.specs.Prelude.{◌+◌, ◌-◌, ◌*◌, ◌≤◌, ◌<◌, ◌^◌, vec_capacity};
    ghost use Rattle.journal.specs.disk_journal.Journal.{JournalState};

    ghost Value = { JournalState D };

    ghost view = { λ j. record {
      disk = j.disk;
      form = j.form;
      end = j.gate + 1;
      used = j.used;
      count = j.count;
      taken = j.taken;
      next = j.next;
      waits = j.waits;
      stopped = j.stopped;
      room = vec_capacity j.buffer - 4;
    } };

    ghost invariant = { λ j. (j.gate < 2 ^ 64 - 1) × (j.used ≤ j.gate + 1) × (j.gate + 1 ≤ 2 * j.used) × (j.count ≤ j.used)
        × (8 ≤ j.next) × (j.next ≤ j.gate) × (j.taken ≤ j.next) };
}

// Whether an entry of so many bytes may be added.
fn admit(stopped: Option<u64>, used: u64, length: u64, epoch: bool) -> Result<(), JournalError>
    ensures admits { JournalAdmits stopped used length epoch result }
    ensures bound { OnOk result (used + 5 + length ≤ 2 ^ 30) }
{
    if let Some(count) = stopped {
        return Err(JournalError::Stopped(count));
    }
    let limit = if epoch { LIMIT } else { LIMIT - EPOCH_ROOM };
    let would = used.saturating_add(AROUND).saturating_add(length);
    if would > limit {
        return Err(JournalError::Full(would, limit));
    }
    Ok(())
}

// The checksum of an entry, where its form has one, behind what the buffer has.
pub(crate) fn push_sum(
    buffer: &mut Vec<u8>,
    form: Form,
    front: &[u8],
    body: &[u8],
) -> Result<(), AllocError>
    requires { front.now ≡ le 4 (length body.now) }
    ensures pushed { OnOk result (buffer.new.items ≡ buffer.old.items ++ form_sum form body.now) }
    ensures room { vec_capacity buffer.old ≤ vec_capacity buffer.new }
    ensures full { OnErr result (vec_capacity buffer.old < length buffer.old.items + 4) }
{
    match form {
        Form::Plain => Ok(()),
        Form::Summed => push_value(buffer, value_of(front, body)),
    }
}

// The checksum of two parts.
#[tactic(auto, unfolding(spec_journal::specs::Castagnoli::crc32c))]
fn value_of(front: &[u8], body: &[u8]) -> u32
    ensures { result ≡ crc32c (front.now ++ body.now) }
{
    sums_law();
    let mut sum = Sum::new();
    sum.add(front);
    sum.add(body);
    sum.value()
}

#[tactic(auto, using(wire_bytes::proofs::byte_lists::Endian::le_4))]
fn push_value(buffer: &mut Vec<u8>, value: u32) -> Result<(), AllocError>
    ensures pushed { OnOk result (buffer.new.items ≡ buffer.old.items ++ le 4 value) }
    ensures room { vec_capacity buffer.old ≤ vec_capacity buffer.new }
    ensures full { OnErr result (vec_capacity buffer.old < length buffer.old.items + 4) }
{
    buffer.extend_from_slice(&value.to_le_bytes())?;
    Ok(())
}

// The length of a body in four bytes.
#[tactic(auto, using(wire_bytes::proofs::byte_lists::Endian::le_4))]
fn front_of(body: &[u8]) -> [u8; 4]
    requires { length body.now < 2 ^ 32 }
    ensures { result ≡ le 4 (length body.now) }
{
    (body.len() as u32).to_le_bytes()
}

// The length of a body and its checksum, behind what the buffer has.
#[tactic(auto, using(crate::proofs::disk_journal::Gathered::sum_short))]
fn put_head(buffer: &mut Vec<u8>, form: Form, body: &[u8]) -> Result<(), AllocError>
    requires { length body.now < 2 ^ 32 }
    ensures put { OnOk result (buffer.new.items ≡ (buffer.old.items ++ le 4 (length body.now)) ++ form_sum form body.now) }
    ensures long { OnOk result (length buffer.new.items ≤ length buffer.old.items + 8) }
    ensures room { vec_capacity buffer.old ≤ vec_capacity buffer.new }
    ensures full { OnErr result (vec_capacity buffer.old < length buffer.old.items + 8) }
{
    let front = front_of(body);
    buffer.extend_from_slice(&front)?;
    push_sum(buffer, form, &front, body)
}

// What stands behind the gate of an entry, behind what the buffer has: the length, a checksum or none, the body and the next closed gate.
pub(crate) fn put_behind(buffer: &mut Vec<u8>, form: Form, body: &[u8]) -> Result<(), AllocError>
    requires { length body.now < 2 ^ 32 }
    ensures put { OnOk result (buffer.new.items ≡ buffer.old.items ++ (form_entry form body.now ++ 0 ∷ [])) }
    ensures room { vec_capacity buffer.old ≤ vec_capacity buffer.new }
    ensures full { OnErr result (vec_capacity buffer.old < length buffer.old.items + length body.now + 9) }
{
    put_head(buffer, form, body)?;
    buffer.extend_from_slice(body)?;
    buffer.push(0)?;
    Ok(())
}

// The same at the buffer's front.
fn fill(buffer: &mut Vec<u8>, form: Form, body: &[u8]) -> Result<(), AllocError>
    requires { length body.now < 2 ^ 32 }
    ensures filled { OnOk result (buffer.new.items ≡ form_entry form body.now ++ 0 ∷ []) }
    ensures room { vec_capacity buffer.old ≤ vec_capacity buffer.new }
    ensures full { OnErr result (vec_capacity buffer.old < length body.now + 9) }
{
    buffer.clear();
    put_behind(buffer, form, body)
}

impl<D: Disk> Journal<D> {
    /// Makes a new journal, without checksums, of a disk of at most 9 bytes on which nothing waits for a sync. A crash at any
    /// moment leaves a disk that stands for no bodies. It refuses with `DiskFault` alone, only where the disk's count of
    /// faults rose, and hands back the disk with that count.
    pub fn create(alloc: Global, mut disk: D) -> Result<Journal<D>, RefusedStart<D>>
        requires { D.told → IsEntryNew (D.seen disk) (D.may_leave disk) }
        ensures settled { IfOk result (λ journal. D.told → JournalSettled D.seen D.may_leave journal []) }
        ensures any_moment { D.told → LeavesOnly D.moment D.left_since disk (disk_behind result) (λ c. StandsFor c []) }
        ensures cause { JournalCreates D.faults disk result }
    {
        if prepare(&mut disk).is_err() {
            let cause = JournalError::DiskFault(disk.fault_count());
            return Err(RefusedStart { cause, disk });
        }
        Ok(Journal {
            alloc,
            disk,
            form: Form::Plain,
            gate: 8,
            used: 9,
            count: 0,
            next: 8,
            taken: 0,
            waits: None,
            stopped: None,
            buffer: Vec::new(alloc),
        })
    }

    /// Makes a journal of what a crash left: syncs, reads the gates, and cuts behind the closed one. At
    /// most 9 bytes that are no journal are taken as a new disk. The journal has exactly the bodies that
    /// the bytes stood for, of which none is handed out yet. Whatever it answers, a read then gives bytes that stand for
    /// the same bodies, and a crash at any moment leaves what it could leave before the call, or such bytes; and a disk
    /// whose bytes break the grammar was only read and synced.
    ///
    /// Where it refuses it hands back the disk. `NotAJournal` carries the first byte that is no mark's, or the open
    /// gate whose entry doesn't fit or has another checksum. `DiskFault` comes only where the disk's count of faults rose, and carries it.
    pub fn recover(alloc: Global, mut disk: D) -> Result<Journal<D>, RefusedStart<D>>
        ensures settled { IfOk result (λ journal. D.told → (bodies : List (List ℕ)) → StandsFor (D.seen disk) bodies
            → JournalSettled D.seen D.may_leave journal bodies) }
        ensures spared { D.told → (at : ℕ) → BreaksAt (D.seen disk) at
            → Quiet D.told D.seen D.may_leave D.moment D.left_since disk (disk_behind result) }
        ensures stays { D.told → (bodies : List (List ℕ)) → StandsFor (D.seen disk) bodies
            → StandsFor (D.seen (disk_behind result)) bodies }
        ensures any_moment { D.told → (bodies : List (List ℕ)) → StandsFor (D.seen disk) bodies
            → LeavesOnly D.moment D.left_since disk (disk_behind result) (λ c. D.may_leave disk c ⊎ StandsFor c bodies) }
        ensures cause { JournalRecovers D.told D.seen D.faults disk result }
    {
        match repair(&mut disk) {
            Ok(
                Found::Behind {
                    form,
                    gate,
                    used,
                    count,
                },
            ) => Ok(Journal {
                alloc,
                disk,
                form,
                gate,
                used,
                count,
                next: 8,
                taken: 0,
                waits: None,
                stopped: None,
                buffer: Vec::new(alloc),
            }),
            Ok(Found::Broken(at)) => Err(RefusedStart {
                cause: JournalError::NotAJournal(at),
                disk,
            }),
            Err(_) => Err(RefusedStart {
                cause: JournalError::DiskFault(disk.fault_count()),
                disk,
            }),
        }
    }

    /// Adds a body and answers its number, from 0. At Ok it is on the disk: from then on each crash leaves
    /// a disk that stands for it. A crash at any moment of the call leaves a disk that stands for the
    /// bodies before it, or for these and the new one.
    ///
    /// A body that waits is on the disk before: its gate is opened and synced first.
    ///
    /// `DiskFault` comes only where the disk's count of faults rose, and carries it; from then on each call
    /// answers `Stopped` with that count. `Full` carries the bytes that the journal would use and its
    /// limit, which is 939,524,096, and 1,073,741,824 for a body that begins an `epoch`.
    pub fn append(&mut self, body: &[u8], epoch: bool) -> Result<u64, JournalError>
        ensures acknowledged { D.told → (bodies : List (List ℕ)) → JournalSettled D.seen D.may_leave self.old bodies
            → IfOk result (λ number. (number ≡ length bodies) × JournalSettled D.seen D.may_leave self.new (bodies ++ body.now ∷ [])) }
        ensures any_moment { D.told → (bodies : List (List ℕ)) → JournalSettled D.seen D.may_leave self.old bodies
            → LeavesOnly D.moment D.left_since self.old.disk self.new.disk (BeforeOrAfter bodies body.now) }
        ensures stays { D.told → (bodies : List (List ℕ)) → JournalSettled D.seen D.may_leave self.old bodies
            → BeforeOrAfter bodies body.now (D.seen self.new.disk) }
        ensures next { D.told → (bodies : List (List ℕ)) (waiting : List ℕ) → JournalWaits D.seen D.may_leave self.old bodies waiting
            → IfOk result (λ number. (number ≡ length (bodies ++ waiting ∷ []))
            × JournalSettled D.seen D.may_leave self.new ((bodies ++ waiting ∷ []) ++ body.now ∷ [])) }
        ensures next_moment { D.told → (bodies : List (List ℕ)) (waiting : List ℕ) → JournalWaits D.seen D.may_leave self.old bodies waiting
            → LeavesOnly D.moment D.left_since self.old.disk self.new.disk
            (λ c. StandsFor c bodies ⊎ BeforeOrAfter (bodies ++ waiting ∷ []) body.now c) }
        ensures cause { Appends D.faults self.old body.now epoch result self.new }
    {
        admit(self.stopped, self.used, body.len() as u64, epoch)?;
        fill(&mut self.buffer, self.form, body)?;
        if add_entry(&mut self.disk, self.waits, self.gate, &self.buffer).is_err() {
            let count = self.disk.fault_count();
            // What the disk has of the entry is unknown, so each later call is refused until a recovery has read it.
            self.stopped = Some(count);
            return Err(JournalError::DiskFault(count));
        }
        self.gate += AROUND + sum_bytes(self.form) + body.len() as u64;
        self.used += AROUND + body.len() as u64;
        let number = self.count;
        self.count += 1;
        self.waits = None;
        Ok(number)
    }

    /// Writes a body behind a gate that stays closed, and syncs: it waits. The body that waited before is on the disk at Ok: from then on
    /// each crash leaves a disk that stands for it. A crash at any moment of the call leaves a disk that stands for the bodies before
    /// that one, or for these and that one; never for the body that is written. Its answers are those of `append`.
    pub fn stage(&mut self, body: &[u8], epoch: bool) -> Result<(), JournalError>
        ensures first { D.told → (bodies : List (List ℕ)) → JournalSettled D.seen D.may_leave self.old bodies
            → OnOk result (JournalWaits D.seen D.may_leave self.new bodies body.now) }
        ensures first_moment { D.told → (bodies : List (List ℕ)) → JournalSettled D.seen D.may_leave self.old bodies
            → LeavesOnly D.moment D.left_since self.old.disk self.new.disk (λ c. StandsFor c bodies) }
        ensures next { D.told → (bodies : List (List ℕ)) (waiting : List ℕ) → JournalWaits D.seen D.may_leave self.old bodies waiting
            → OnOk result (JournalWaits D.seen D.may_leave self.new (bodies ++ waiting ∷ []) body.now) }
        ensures next_moment { D.told → (bodies : List (List ℕ)) (waiting : List ℕ) → JournalWaits D.seen D.may_leave self.old bodies waiting
            → LeavesOnly D.moment D.left_since self.old.disk self.new.disk (BeforeOrAfter bodies waiting) }
        ensures cause { StageAnswers D.faults self.old body.now epoch result self.new }
    {
        admit(self.stopped, self.used, body.len() as u64, epoch)?;
        fill(&mut self.buffer, self.form, body)?;
        if put_entry(&mut self.disk, self.waits, self.gate, &self.buffer).is_err() {
            let count = self.disk.fault_count();
            self.stopped = Some(count);
            return Err(JournalError::DiskFault(count));
        }
        self.waits = Some(self.gate);
        self.gate += AROUND + sum_bytes(self.form) + body.len() as u64;
        self.used += AROUND + body.len() as u64;
        self.count += 1;
        Ok(())
    }

    /// Opens the gate of the body that waits, if one does, and syncs: at Ok it is on the disk. Where none waits it makes no call on the
    /// disk. `DiskFault` comes only where the disk's count of faults rose, and carries it; from then on each call answers `Stopped` with
    /// that count.
    pub fn settle(&mut self) -> Result<(), JournalError>
        ensures settled { D.told → (bodies : List (List ℕ)) (waiting : List ℕ) → JournalWaits D.seen D.may_leave self.old bodies waiting
            → OnOk result (JournalSettled D.seen D.may_leave self.new (bodies ++ waiting ∷ [])) }
        ensures any_moment { D.told → (bodies : List (List ℕ)) (waiting : List ℕ) → JournalWaits D.seen D.may_leave self.old bodies waiting
            → LeavesOnly D.moment D.left_since self.old.disk self.new.disk (BeforeOrAfter bodies waiting) }
        ensures none { self.old.waits ≡ None → self.new ≡ self.old }
        ensures cause { Settles D.faults self.old result self.new }
    {
        if let Some(count) = self.stopped {
            return Err(JournalError::Stopped(count));
        }
        if open_waiting(&mut self.disk, self.waits).is_err() {
            let count = self.disk.fault_count();
            self.stopped = Some(count);
            return Err(JournalError::DiskFault(count));
        }
        self.waits = None;
        Ok(())
    }

    /// Makes room for a body of so many bytes, and makes no call on the disk. After Ok the next `append`
    /// of a body that is no longer, with the same `epoch`, wants no memory and isn't full.
    pub fn reserve(&mut self, length: u32, epoch: bool) -> Result<(), JournalError>
        ensures { Reserves self.old length epoch result self.new }
    {
        admit(self.stopped, self.used, length as u64, epoch)?;
        self.buffer.clear();
        self.buffer.reserve(length as usize + MOST_AROUND)?;
        Ok(())
    }

    /// The next body, in order, and `None` exactly where all were handed out. One that is appended before
    /// comes last. It reads that entry alone.
    ///
    /// `DiskFault` comes only where the disk's count of faults rose, and carries it; from then on each call
    /// answers `Stopped` with that count. After `Memory` nothing was handed out. `NotAJournal` with the
    /// entry's gate comes only on a disk that no longer gives what was written.
    pub fn next_body(&mut self) -> Result<Option<Bytes>, JournalError>
        ensures in_order { D.told → (bodies : List (List ℕ)) → JournalSettled D.seen D.may_leave self.old bodies
            → HandsOut D.seen D.may_leave self.old bodies result self.new }
        ensures quiet { Quiet D.told D.seen D.may_leave D.moment D.left_since self.old.disk self.new.disk }
        ensures cause { JournalNextAnswers D.faults self.old result self.new }
    {
        if let Some(count) = self.stopped {
            return Err(JournalError::Stopped(count));
        }
        if self.next == self.gate {
            return Ok(None);
        }
        match read_body(self.alloc, &mut self.disk, self.form, self.next, self.gate) {
            Ok(body) => {
                self.next += AROUND + sum_bytes(self.form) + body.len() as u64;
                self.taken += 1;
                Ok(Some(body))
            }
            Err(NoBody::Memory) => Err(JournalError::Memory),
            Err(NoBody::Failed) => {
                let count = self.disk.fault_count();
                self.stopped = Some(count);
                Err(JournalError::DiskFault(count))
            }
            Err(NoBody::EndsEarly) => Err(JournalError::NotAJournal(self.next)),
        }
    }

    // All that were not handed out yet.
    fn rest(&mut self) -> Result<BytesList, JournalError>
        requires { self.old.stopped ≡ None }
        ensures in_order { D.told → (bodies : List (List ℕ)) → JournalSettled D.seen D.may_leave self.old bodies
            → HandsOutRest D.seen D.may_leave self.old bodies result self.new }
        ensures quiet { Quiet D.told D.seen D.may_leave D.moment D.left_since self.old.disk self.new.disk }
        ensures cause { RestAnswers D.faults self.old result self.new }
    {
        let mut list = BytesList::new(self.alloc);
        loop {
            match self.next_body() {
                Ok(Some(body)) => list.push(body)?,
                Ok(None) => return Ok(list),
                Err(error) => return Err(error),
            }
        }
    }

    /// All bodies, in order, whatever was handed out; that stays as it was. Its answers are those of
    /// `next_body`.
    pub fn bodies(&mut self) -> Result<BytesList, JournalError>
        ensures all { D.told → (bodies : List (List ℕ)) → JournalSettled D.seen D.may_leave self.old bodies
            → HandsOutAll D.seen D.may_leave bodies result self.new }
        ensures quiet { Quiet D.told D.seen D.may_leave D.moment D.left_since self.old.disk self.new.disk }
        ensures cause { AllAnswers D.faults self.old result self.new }
    {
        if let Some(count) = self.stopped {
            return Err(JournalError::Stopped(count));
        }
        let next = self.next;
        let taken = self.taken;
        self.next = 8;
        self.taken = 0;
        let answer = self.rest();
        self.next = next;
        self.taken = taken;
        answer
    }

    /// How many bytes the journal uses, with the gate at its end, but for checksums.
    pub fn used(&self) -> u64
        ensures { result ≡ self.now.used }
    {
        self.used
    }

    /// How its entries stand on the disk, with checksums or without.
    pub fn form(&self) -> Form
        ensures { result ≡ self.now.form }
    {
        self.form
    }

    /// Where the gate stands of the body that `next_body` hands out next; where all were, that of the closed one behind the last.
    pub fn next_gate(&self) -> u64
        ensures { result ≡ self.now.next }
    {
        self.next
    }

    /// Hands back the disk.
    pub fn stop(self) -> D
        ensures { result ≡ self.disk }
    {
        self.disk
    }
}

impl<D: TellsRoom> Journal<D> {
    /// Fills the file ahead with zeros, until 16 MiB stand behind the closed gate at the end, where fewer than 4 MiB do, and syncs: entries
    /// don't make the file grow then. `false`: the disk has no room for them. The bodies, and one that waits, stay as they are, and a crash
    /// at any moment of the call leaves a disk that stands for the bodies. `Memory` comes before any call of the disk.
    pub fn take_ahead(&mut self) -> Result<bool, JournalError>
        ensures settled { D.told → (bodies : List (List ℕ)) → JournalSettled D.seen D.may_leave self.old bodies
            → OnOk result (JournalSettled D.seen D.may_leave self.new bodies) }
        ensures settled_moment { D.told → (bodies : List (List ℕ)) → JournalSettled D.seen D.may_leave self.old bodies
            → LeavesOnly D.moment D.left_since self.old.disk self.new.disk (λ c. StandsFor c bodies) }
        ensures waits { D.told → (bodies : List (List ℕ)) (waiting : List ℕ) → JournalWaits D.seen D.may_leave self.old bodies waiting
            → OnOk result (JournalWaits D.seen D.may_leave self.new bodies waiting) }
        ensures waits_moment { D.told → (bodies : List (List ℕ)) (waiting : List ℕ) → JournalWaits D.seen D.may_leave self.old bodies waiting
            → LeavesOnly D.moment D.left_since self.old.disk self.new.disk (λ c. StandsFor c bodies) }
        ensures filled { D.told → (bodies : List (List ℕ)) → JournalSettled D.seen D.may_leave self.old bodies
            → IfOk result (λ whole. IsTrue whole → self.new.end + 4194304 ≤ length (D.seen self.new.disk)) }
        ensures cause { TakesAhead D.faults self.old result self.new }
    {
        if let Some(count) = self.stopped {
            return Err(JournalError::Stopped(count));
        }
        // Behind its limit a journal takes no entry.
        if self.used > LIMIT {
            return Ok(false);
        }
        make_zeros(&mut self.buffer)?;
        match fill_ahead(&mut self.disk, self.gate, &self.buffer) {
            Ok(whole) => Ok(whole),
            Err(_) => {
                let count = self.disk.fault_count();
                self.stopped = Some(count);
                Err(JournalError::DiskFault(count))
            }
        }
    }
}

impl<D: Renewal> Journal<D> {
    /// Begins to write the journal anew, with checksums: a draft beside its disk, without bodies. `None` where the disk has no room for
    /// it. Until `finish` the journal and what a crash leaves of it are as they were, so it may go on at any time, and the draft is
    /// forgotten.
    ///
    /// `DiskFault` comes only where the disk's count of faults rose, and carries it; from then on each call answers `Stopped` with that
    /// count.
    pub fn begin_rewrite(&mut self) -> Result<Option<Rewrite>, JournalError>
        ensures begun { D.told → IfOk result (λ found. MatchOption found (Unit {0}) (λ w. IsDrafted D.drafted self.new.disk w [])) }
        ensures goes_on { D.told → (bodies : List (List ℕ)) → JournalSettled D.seen D.may_leave self.old bodies
            → IfOk result (λ _. JournalSettled D.seen D.may_leave self.new bodies) }
        ensures quiet { Quiet D.told D.seen D.may_leave D.moment D.left_since self.old.disk self.new.disk }
        ensures cause { RewriteBegins D.faults self.old result self.new }
    {
        if let Some(count) = self.stopped {
            return Err(JournalError::Stopped(count));
        }
        match begin_marked(&mut self.disk) {
            Ok(DiskStep::Done) => Ok(Some(Rewrite::new())),
            Ok(DiskStep::NoRoom) => Ok(None),
            Err(_) => {
                let count = self.disk.fault_count();
                self.stopped = Some(count);
                Err(JournalError::DiskFault(count))
            }
        }
    }

    /// Puts a body behind those that were put. Where there is no room for it, or memory runs out, the journal stays as it was, and the
    /// draft is given up by the caller. `Full` carries the bytes that the new journal would use, and its limit, which is 939,524,096.
    pub fn put(&mut self, rewrite: &mut Rewrite, body: &[u8]) -> Result<DiskStep, JournalError>
        ensures put { D.told → (bodies : List (List ℕ)) → IsDrafted D.drafted self.old.disk rewrite.old bodies
            → IfDone result (IsDrafted D.drafted self.new.disk rewrite.new (bodies ++ body.now ∷ [])) }
        ensures goes_on { D.told → (bodies : List (List ℕ)) → JournalSettled D.seen D.may_leave self.old bodies
            → IfOk result (λ _. JournalSettled D.seen D.may_leave self.new bodies) }
        ensures quiet { Quiet D.told D.seen D.may_leave D.moment D.left_since self.old.disk self.new.disk }
        ensures cause { RewritePuts D.faults self.old rewrite.old (length body.now) result self.new rewrite.new }
    {
        admit(self.stopped, rewrite.used, body.len() as u64, false)?;
        fill_opened(&mut self.buffer, body)?;
        match put_quiet(&mut self.disk, &self.buffer) {
            Ok(DiskStep::Done) => {
                rewrite.gate += AROUND_SUMMED + body.len() as u64;
                rewrite.used += AROUND + body.len() as u64;
                rewrite.count += 1;
                Ok(DiskStep::Done)
            }
            Ok(DiskStep::NoRoom) => Ok(DiskStep::NoRoom),
            Err(_) => {
                let count = self.disk.fault_count();
                self.stopped = Some(count);
                Err(JournalError::DiskFault(count))
            }
        }
    }

    /// Closes the draft, and lets it take the disk's place: from then on the journal has exactly the bodies that were put, which count as
    /// handed out. A crash at any moment leaves what stands for the old bodies, or for those that were put. Where there is no room the
    /// journal stays as it was. After `DiskFault` it isn't known which of both the disk has, and the journal stops.
    pub fn finish(&mut self, rewrite: &Rewrite) -> Result<DiskStep, JournalError>
        ensures adopted { D.told → (told : List (List ℕ)) → IsDrafted D.drafted self.old.disk rewrite.now told
            → IfDone result (JournalSettled D.seen D.may_leave self.new told) }
        ensures goes_on { D.told → (bodies : List (List ℕ)) → JournalSettled D.seen D.may_leave self.old bodies
            → IfNoRoom result (JournalSettled D.seen D.may_leave self.new bodies) }
        ensures any_moment { D.told → (bodies told : List (List ℕ)) → JournalSettled D.seen D.may_leave self.old bodies
            → IsDrafted D.drafted self.old.disk rewrite.now told
            → LeavesOnly D.moment D.left_since self.old.disk self.new.disk (λ c. StandsFor c bodies ⊎ StandsFor c told) }
        ensures stays { D.told → (bodies told : List (List ℕ)) → JournalSettled D.seen D.may_leave self.old bodies
            → IsDrafted D.drafted self.old.disk rewrite.now told
            → StandsFor (D.seen self.new.disk) bodies ⊎ StandsFor (D.seen self.new.disk) told }
        ensures cause { RewriteEnds D.faults self.old rewrite.now result self.new }
    {
        if let Some(count) = self.stopped {
            return Err(JournalError::Stopped(count));
        }
        match close_and_adopt(&mut self.disk) {
            Ok(DiskStep::Done) => {
                self.go_on_with(rewrite);
                Ok(DiskStep::Done)
            }
            Ok(DiskStep::NoRoom) => Ok(DiskStep::NoRoom),
            Err(_) => {
                let count = self.disk.fault_count();
                self.stopped = Some(count);
                Err(JournalError::DiskFault(count))
            }
        }
    }

    // The draft is the journal's disk, and its bodies count as handed out.
    fn go_on_with(&mut self, rewrite: &Rewrite)
        ensures { self.new ≡ record {
          disk = self.old.disk;
          form = forms.Summed;
          end = rewrite.now.gate + 1;
          used = rewrite.now.used;
          count = rewrite.now.count;
          taken = rewrite.now.count;
          next = rewrite.now.gate;
          waits = None;
          stopped = None;
          room = self.old.room;
        } }
    {
        self.form = Form::Summed;
        self.gate = rewrite.gate;
        self.used = rewrite.used;
        self.count = rewrite.count;
        self.taken = rewrite.count;
        self.next = rewrite.gate;
        self.waits = None;
        self.stopped = None;
    }
}
