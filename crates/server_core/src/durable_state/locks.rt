//! Lock records: the ranges behind one that was granted, and the slot that keeps its answer.
ghost use Rattle.std.specs.Prelude.{◌≡◌, ◌/◌, ◌||◌, true, false, length, map, IfOk, OnOk};
ghost use Rattle.spec_exchange.specs.CheckOpen.{file_of, is_slot};
ghost use Rattle.spec_exchange.specs.Commands.{all_lock, all_unlock};
ghost use Rattle.spec_exchange.specs.Effects.{keep_slot};
ghost use Rattle.spec_exchange.specs.Fold.{lock_granted, lock_recorded, with_record};
ghost use Rattle.spec_exchange.specs.Ranges.{Denied, RangeAnswer, change_ranges, count_owned, ranges_of};
ghost use Rattle.spec_exchange.specs.State.{LockRecord, Origin, Server};
ghost use Rattle.journal_bytes.specs.record_bytes.Meaning.{elements_in};
ghost use Rattle.spec_exchange.specs.Table.{is_filled};
ghost use Rattle.store_opens.specs.open_table.Locks.{DeniedBy};
ghost use Rattle.store_opens.specs.share_modes.Answers.{AllOf, status_of};
ghost use Rattle.store_opens.specs.share_modes.Locking as held;
ghost use Rattle.store_opens.specs.share_modes.Locking.{range_of};
ghost use Rattle.server_core.specs.durable_state.Durable.{DurableShown, is_granted, ranges_behind};
ghost use Rattle.law_server.specs.tables.Fits.{Fits};

use crate::durable_state::durable::Durable;
use journal_bytes::elements_of;
use server_checks::{all_lock, ranges_of};
use spec_exchange::values::Element;
use std::alloc::AllocError;
use store_opens::{Range, RangeError, RangeList};

const MAX_RANGES: usize = 1024;

impl Durable {
    pub(crate) fn lock_recorded(
        &mut self,
        id: u64,
        index: u8,
        number: u8,
        status: u32,
        bytes: &[u8],
    ) -> Result<(), AllocError>
        ensures { (s : Server) (origin : Origin) → Fits s → DurableShown self.old s → OnOk result (DurableShown self.new
            (with_record s (LockRecord origin id index number status (elements_in (length bytes.now / 24) bytes.now)))) }
    {
        if index > 64 {
            return Ok(());
        }
        if !self.opens.stands(id) {
            return Ok(());
        }
        match elements_of(self.alloc, bytes) {
            Ok(elements) => self.lock_with(id, index, number, status, &elements),
            Err(error) => Err(error),
        }
    }

    fn lock_with(
        &mut self,
        id: u64,
        index: u8,
        number: u8,
        status: u32,
        elements: &[Element],
    ) -> Result<(), AllocError>
        ensures { (s : Server) → Fits s → DurableShown self.old s → s.standing id ≡ true → OnOk result (DurableShown self.new
            (lock_recorded s id index number status elements.now)) }
    {
        if !is_alike(elements) {
            return Ok(());
        }
        if status != 0 {
            self.keep(id, index, number, status);
            return Ok(());
        }
        match self.lock_granted(id, elements) {
            Ok(may) => {
                self.keep_if(may, id, index, number);
                Ok(())
            }
            Err(error) => Err(error),
        }
    }

    // A lock that was granted is kept as a success.
    fn keep_if(&mut self, may: bool, id: u64, index: u8, number: u8)
        ensures { (s : Server) (answer : RangeAnswer) → may ≡ is_granted answer → DurableShown self.old (ranges_behind s id answer)
            → s.standing id ≡ true → DurableShown self.new (lock_granted s id index number answer) }
    {
        if may {
            self.keep(id, index, number, 0);
        }
    }

    // A slot keeps the answer; an index that is none keeps nothing.
    fn keep(&mut self, id: u64, index: u8, number: u8, status: u32)
        ensures { (s : Server) → DurableShown self.old s → s.standing id ≡ true
            → DurableShown self.new (keep_slot s id index number status) }
    {
        if is_slot(index) {
            self.opens.keep(id, index, number, status);
        }
    }

    // The ranges stand behind a lock that was granted. Tells whether they may.
    fn lock_granted(&mut self, id: u64, elements: &[Element]) -> Result<bool, AllocError>
        ensures { IfOk result (λ b. (s : Server) → Fits s → DurableShown self.old s → s.standing id ≡ true
            → let answer = change_ranges (s.ranges (file_of s id)) id elements.now in
            (b ≡ is_granted answer) × DurableShown self.new (ranges_behind s id answer)) }
    {
        if elements.is_empty() {
            return Ok(self.owned_ranges(id) <= MAX_RANGES);
        }
        match ranges_of(self.alloc, id, elements) {
            Ok(wanted) => self.change_ranges(id, elements, &RangeList::from_vec(wanted)),
            Err(error) => Err(error),
        }
    }

    // The same of these ranges, which the elements name.
    fn change_ranges(
        &mut self,
        id: u64,
        elements: &[Element],
        wanted: &RangeList,
    ) -> Result<bool, AllocError>
        ensures { IfOk result (λ b. (s : Server) → Fits s → DurableShown self.old s → s.standing id ≡ true
            → is_filled elements.now ≡ true → map range_of wanted.now ≡ ranges_of id elements.now → AllOf id wanted.now
            → let answer = change_ranges (s.ranges (file_of s id)) id elements.now in
            (b ≡ is_granted answer) × DurableShown self.new (ranges_behind s id answer)) }
    {
        if all_lock(elements) {
            return match self.opens.lock(id, wanted) {
                Ok(()) => Ok(true),
                Err(error) => refused(&error),
            };
        }
        match self.opens.unlock(id, wanted) {
            Ok(()) => Ok(true),
            Err(error) => refused(&error),
        }
    }

    // How many ranges of its file an open has.
    fn owned_ranges(&self, id: u64) -> usize
        ensures { (s : Server) → DurableShown self.now s → s.standing id ≡ true → result ≡ count_owned id (s.ranges (file_of s id)) }
    {
        owned(id, self.opens.ranges(self.opens.file_of(id)))
    }
}

// Open.LockSequenceArray has the places 1 to 64 (MS-SMB2 3.3.1.10).
fn is_slot(index: u8) -> bool
    ensures { result ≡ is_slot index }
{
    index >= 1 && index <= 64
}

// All elements lock, or all unlock.
fn is_alike(elements: &[Element]) -> bool
    ensures { result ≡ (all_lock elements.now || all_unlock elements.now) }
{
    all_lock(elements) || all_unlock(elements)
}

// Each element unlocks.
fn all_unlock(elements: &[Element]) -> bool
    ensures { result ≡ all_unlock elements.now }
{
    for one in elements {
        if one.flags != 0x4 {
            return false;
        }
    }
    true
}

// How many of the ranges the open has.
fn owned(id: u64, ranges: &[Range]) -> usize
    ensures { result ≡ held.locking_count_owned id ranges.now }
{
    let mut count = 0;
    for one in ranges {
        if one.owner == id {
            count += 1;
        }
    }
    count
}

// A lock that is refused changes nothing.
fn refused(error: &RangeError) -> Result<bool, AllocError>
    ensures { IfOk result (λ b. (b ≡ false)
        × ((a : RangeAnswer) → DeniedBy error.now a → a ≡ Denied (status_of error.now))) }
{
    match error {
        RangeError::Memory => Err(AllocError),
        RangeError::NotGranted(_) => Ok(false),
        RangeError::NotLocked(_) => Ok(false),
        RangeError::Conflict(_) => Ok(false),
        RangeError::BadRange(_) => Ok(false),
        RangeError::TooMany => Ok(false),
    }
}
