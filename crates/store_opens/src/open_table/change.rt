//! Changes of one open, or of the ranges of its file, that take no memory; and locks.
ghost use Rattle.std.specs.Prelude.{◌≡◌, ◌≤◌, ◌==◌, ℕ, true, false, Option, Some, is_some, map, IfSome, MatchResult, if◌then◌else◌, nat_eq};
ghost use Rattle.std.specs.HashMap.{get, hash_map_len};
ghost use Rattle.spec_exchange.specs.State.{Server, Kept};
ghost use Rattle.spec_exchange.specs.Effects.{keep_slot, set_ranges};
ghost use Rattle.store_opens.specs.channel_sequence.Offered.{offered};
ghost use Rattle.spec_exchange.specs.Table.{is_filled, put};
ghost use Rattle.spec_exchange.specs.Opens.{file_has_open};
ghost use Rattle.spec_exchange.specs.Ranges.{Stands, lock_ranges, unlock_ranges};
ghost use Rattle.law_server.specs.tables.Fits.{Fits};
ghost use Rattle.store_opens.specs.share_modes.Locking.{range_of, lock_outcome, unlock_outcome, RefusedBy};
ghost use Rattle.store_opens.specs.share_modes.Locking as outcomes;
ghost use Rattle.store_opens.specs.share_modes.Answers.{AllOf};
ghost use Rattle.store_opens.specs.open_table.Locks.{DeniedBy, StandsWith, held_of, held_by, with_ranges};
ghost use Rattle.store_opens.specs.lock_replay.Shown.{SlotsShown};
ghost use Rattle.store_opens.specs.open_table.Rows.{offered_row, located_row, positioned_row, SlotsPut};
ghost use Rattle.store_opens.specs.open_table.Shown.{ShowsOpens};
ghost use Rattle.store_opens.specs.open_table.Changes.{offered_to, located_at, offset_at};

use crate::channel_sequence::Offered;
use crate::open_index::FileOpens;
use crate::open_table::row::Row;
use crate::open_table::table::Opens;
use crate::share_modes::{Range, RangeError, RangeList, Ranges, ranges_law};
use std::collections::HashMap;
use wire_bytes::Text;

impl Opens {
    /// A request of this channel sequence comes to an open, which keeps a newer one.
    pub fn offer(&mut self, id: u64, n: u16) -> Offered
        ensures told { (s : Server) → ShowsOpens self.old s → s.standing id ≡ true → result ≡ offered n (s.sequence id) }
        ensures shows { (s : Server) → ShowsOpens self.old s → s.standing id ≡ true → ShowsOpens self.new (offered_to s id n) }
    {
        offer_row(&mut self.rows, id, n)
    }

    /// A lock slot of an open keeps this number and its status.
    pub fn keep(&mut self, id: u64, index: u8, number: u8, status: u32)
        requires { (1 ≤ index) × (index ≤ 64) }
        ensures { (s : Server) → ShowsOpens self.old s → s.standing id ≡ true → ShowsOpens self.new (keep_slot s id index number status) }
    {
        keep_row(&mut self.rows, id, index, number, status);
    }

    /// The listing of an open goes on behind this name.
    pub fn set_location(&mut self, id: u64, last: Option<Text>)
        ensures { (s : Server) → ShowsOpens self.old s → s.standing id ≡ true → ShowsOpens self.new (located_at s id last) }
    {
        put_location(&mut self.rows, id, last);
    }

    /// The position of an open is this one.
    pub fn set_position(&mut self, id: u64, position: u64)
        ensures { (s : Server) → ShowsOpens self.old s → s.standing id ≡ true → ShowsOpens self.new (offset_at s id position) }
    {
        put_position(&mut self.rows, id, position);
    }

    /// What a lock of an open would leave of its file's ranges. A caller that is to write it down first puts it in
    /// place with `put_ranges`.
    pub fn after_lock(&self, id: u64, wanted: &[Range]) -> Result<Vec<Range>, RangeError>
        ensures range { MatchResult result (λ v. lock_outcome (held_by self.now id) wanted.now ≡ outcomes.Stands v.items)
            (λ e. RefusedBy e (lock_outcome (held_by self.now id) wanted.now)) }
        ensures shown { (s : Server) → ShowsOpens self.now s → s.standing id ≡ true → is_filled wanted.now ≡ true → AllOf id wanted.now
            → MatchResult result (λ v. lock_ranges (s.ranges (s.opened id).file) id (map range_of wanted.now)
            ≡ Stands (map range_of v.items))
            (λ e. DeniedBy e (lock_ranges (s.ranges (s.opened id).file) id (map range_of wanted.now))) }
    {
        ranges_law();
        self.lock_in(self.file_of(id), wanted)
    }

    /// What an unlock of an open would leave.
    pub fn after_unlock(&self, id: u64, wanted: &[Range]) -> Result<Vec<Range>, RangeError>
        ensures range { MatchResult result (λ v. unlock_outcome (held_by self.now id) wanted.now ≡ outcomes.Stands v.items)
            (λ e. RefusedBy e (unlock_outcome (held_by self.now id) wanted.now)) }
        ensures shown { (s : Server) → ShowsOpens self.now s → s.standing id ≡ true → is_filled wanted.now ≡ true → AllOf id wanted.now
            → MatchResult result (λ v. unlock_ranges (s.ranges (s.opened id).file) (map range_of wanted.now)
            ≡ Stands (map range_of v.items))
            (λ e. DeniedBy e (unlock_ranges (s.ranges (s.opened id).file) (map range_of wanted.now))) }
    {
        ranges_law();
        self.unlock_in(self.file_of(id), wanted)
    }

    /// These are now the ranges of a file that has an open.
    pub fn put_ranges(&mut self, file: u64, ranges: Vec<Range>)
        ensures held { is_some (get nat_eq self.old.files file) ≡ true → held_of self.new file ≡ ranges.items }
        ensures rows { self.new.rows ≡ self.old.rows }
        ensures shown { (s : Server) → ShowsOpens self.old s → file_has_open s file ≡ true
            → ShowsOpens self.new (set_ranges s file (map range_of ranges.items)) }
    {
        replace_held(&mut self.files, file, ranges);
    }

    // What a lock would leave of a file's ranges.
    fn lock_in(&self, file: u64, wanted: &[Range]) -> Result<Vec<Range>, RangeError>
        ensures { MatchResult result (λ v. lock_outcome (held_of self.now file) wanted.now ≡ outcomes.Stands v.items)
            (λ e. RefusedBy e (lock_outcome (held_of self.now file) wanted.now)) }
    {
        match self.files.get(&file) {
            Some(row) => row.ranges.after_lock(wanted),
            None => Ranges::new(self.alloc).after_lock(wanted),
        }
    }

    // What an unlock would leave of a file's ranges.
    fn unlock_in(&self, file: u64, wanted: &[Range]) -> Result<Vec<Range>, RangeError>
        ensures { MatchResult result (λ v. unlock_outcome (held_of self.now file) wanted.now ≡ outcomes.Stands v.items)
            (λ e. RefusedBy e (unlock_outcome (held_of self.now file) wanted.now)) }
    {
        match self.files.get(&file) {
            Some(row) => row.ranges.after_unlock(wanted),
            None => Ranges::new(self.alloc).after_unlock(wanted),
        }
    }

    /// An open locks all of the wanted ranges, or none. Each range's owner is the open.
    pub fn lock(&mut self, id: u64, wanted: &RangeList) -> Result<(), RangeError>
        ensures range { (s : Server) → Fits s → ShowsOpens self.old s → s.standing id ≡ true
            → MatchResult result (λ _. lock_outcome (held_by self.old id) wanted.now
            ≡ outcomes.Stands (held_by self.new id)) (λ e. RefusedBy e (lock_outcome (held_by self.old id) wanted.now)) }
        ensures shown { (s : Server) → Fits s → ShowsOpens self.old s → s.standing id ≡ true
            → is_filled wanted.now ≡ true → AllOf id wanted.now
            → MatchResult result (λ _. StandsWith (lock_ranges (s.ranges (s.opened id).file) id (map range_of wanted.now))
            (λ ranges. ShowsOpens self.new (set_ranges s (s.opened id).file ranges)))
            (λ e. DeniedBy e (lock_ranges (s.ranges (s.opened id).file) id (map range_of wanted.now)) × ShowsOpens self.new s) }
    {
        match self.after_lock(id, wanted.as_slice()) {
            Ok(ranges) => {
                self.put_ranges(self.file_of(id), ranges);
                return Ok(());
            }
            Err(error) => return Err(error),
        }
    }

    /// An open gives up all of the wanted ranges, or none. Of equal ones it takes the first.
    pub fn unlock(&mut self, id: u64, wanted: &RangeList) -> Result<(), RangeError>
        ensures range { (s : Server) → Fits s → ShowsOpens self.old s → s.standing id ≡ true
            → MatchResult result (λ _. unlock_outcome (held_by self.old id) wanted.now
            ≡ outcomes.Stands (held_by self.new id))
            (λ e. RefusedBy e (unlock_outcome (held_by self.old id) wanted.now)) }
        ensures shown { (s : Server) → Fits s → ShowsOpens self.old s → s.standing id ≡ true
            → is_filled wanted.now ≡ true → AllOf id wanted.now
            → MatchResult result (λ _. StandsWith (unlock_ranges (s.ranges (s.opened id).file) (map range_of wanted.now))
            (λ ranges. ShowsOpens self.new (set_ranges s (s.opened id).file ranges)))
            (λ e. DeniedBy e (unlock_ranges (s.ranges (s.opened id).file) (map range_of wanted.now)) × ShowsOpens self.new s) }
    {
        match self.after_unlock(id, wanted.as_slice()) {
            Ok(ranges) => {
                self.put_ranges(self.file_of(id), ranges);
                return Ok(());
            }
            Err(error) => return Err(error),
        }
    }
}

// A request of this channel sequence comes to the open of a row.
fn offer_row(rows: &mut HashMap<u64, Row>, id: u64, n: u16) -> Offered
    ensures told { IfSome (get nat_eq rows.old id) (λ r. result ≡ offered n r.sequence) }
    ensures rows { (q : ℕ) → get nat_eq rows.new q ≡ (if q == id then offered_row n (get nat_eq rows.old q) else get nat_eq rows.old q) }
    ensures len { hash_map_len rows.new ≡ hash_map_len rows.old }
{
    match rows.get_mut(&id) {
        Some(row) => row.sequence.offer(n),
        None => Offered::Same,
    }
}

fn put_location(rows: &mut HashMap<u64, Row>, id: u64, last: Option<Text>)
    ensures rows { (q : ℕ) → get nat_eq rows.new q ≡ (if q == id then located_row last (get nat_eq rows.old q) else get nat_eq rows.old q) }
    ensures len { hash_map_len rows.new ≡ hash_map_len rows.old }
{
    if let Some(row) = rows.get_mut(&id) {
        row.location = last;
    }
}

fn put_position(rows: &mut HashMap<u64, Row>, id: u64, position: u64)
    ensures rows { (q : ℕ) → get nat_eq rows.new q ≡ (if q == id then positioned_row position (get nat_eq rows.old q) else get nat_eq rows.old q) }
    ensures len { hash_map_len rows.new ≡ hash_map_len rows.old }
{
    if let Some(row) = rows.get_mut(&id) {
        row.position = position;
    }
}

// A slot of a row keeps this number and its status.
fn keep_row(rows: &mut HashMap<u64, Row>, id: u64, index: u8, number: u8, status: u32)
    requires { (1 ≤ index) × (index ≤ 64) }
    ensures there { SlotsPut (get nat_eq rows.old id) (get nat_eq rows.new id) (λ x y. (kept : ℕ → Option Kept)
        → SlotsShown x kept → SlotsShown y (put kept index (Some (record { number = number; status = status })))) }
    ensures others { (q : ℕ) → (q == id) ≡ false → get nat_eq rows.new q ≡ get nat_eq rows.old q }
    ensures len { hash_map_len rows.new ≡ hash_map_len rows.old }
{
    if let Some(row) = rows.get_mut(&id) {
        row.slots.keep(index, number, status);
    }
}

// These are the ranges of a file that has a row.
fn replace_held(files: &mut HashMap<u64, FileOpens>, file: u64, ranges: Vec<Range>)
    ensures { (q : ℕ) → get nat_eq files.new q ≡ (if q == file then with_ranges ranges.items (get nat_eq files.old q)
        else get nat_eq files.old q) }
{
    if let Some(row) = files.get_mut(&file) {
        row.ranges.replace(ranges);
    }
}
