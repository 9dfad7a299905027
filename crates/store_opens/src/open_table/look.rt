//! What the table tells. None of it takes memory but what hands out lists.
ghost use Rattle.spec_exchange.specs.Table.{is_at};
ghost use Rattle.std.specs.Prelude.{◌&&◌, ◌≡◌, IsSome, ◌<◌, ◌≤◌, ◌==◌, ℕ, true, false, None, Some, map, length};
ghost use Rattle.std.specs.Prelude.{nat_le, MatchResult, if◌then◌else◌, option_copied, nat_eq};
ghost use Rattle.std.specs.HashMap.{get};
ghost use Rattle.spec_exchange.specs.State.{Server};
ghost use Rattle.spec_exchange.specs.Opens.{file_has_open, is_of_tree, opens_of, admits, max_ids};
ghost use Rattle.spec_exchange.specs.CheckOpen.{is_stale, kept_status};
ghost use Rattle.spec_exchange.specs.Ranges.{may_read, may_write};
ghost use Rattle.spec_exchange.specs.Effects.{next_open};
ghost use Rattle.store_opens.specs.share_modes.Locking.{range_of, read_conflict, write_conflict, IsConflict};
ghost use Rattle.store_opens.specs.open_table.Locks.{held_of, held_by, file_at};
ghost use Rattle.store_opens.specs.open_table.Shown.{ShowsOpens, next_of};
ghost use Rattle.store_opens.specs.open_table.Rows.{OpenRowFound, PartsFound};
ghost use Rattle.store_opens.specs.open_index.Keep.{kept_of, keep_capped};
ghost use Rattle.store_opens.specs.open_table.Kept.{kept_result};

use crate::open_index::{KeptCreate, KeptResult, SessionOpens};
use crate::open_table::row::{OpenParts, Row};
use crate::open_table::table::Opens;
use crate::share_modes::{Range, RangeError, ranges_law};

// The ids of one epoch are counted from 1 in 32 bits.
const MAX_IDS: u32 = 0xffff_ffff;

impl Opens {
    /// How many opens stand.
    pub fn count(&self) -> usize
        ensures { (s : Server) → ShowsOpens self.now s → result ≡ length s.opens }
    {
        self.rows.len()
    }

    pub fn stands(&self, id: u64) -> bool
        ensures { (s : Server) → ShowsOpens self.now s → result ≡ s.standing id }
    {
        self.rows.contains_key(&id)
    }

    /// Whether an open is attached to a session. No contract rests on it: whoever waits for a silent peer asks it. It looks at one open
    /// mostly, and at most at each that the session listed.
    pub fn has_attached(&self, session: u64) -> bool {
        let Some(listed) = self.sessions.get(&session) else {
            return false;
        };
        for id in &listed.opens {
            if self.is_attached(*id, session) {
                return true;
            }
        }
        false
    }

    fn is_attached(&self, id: u64, session: u64) -> bool {
        match self.rows.get(&id) {
            Some(row) => row.session == Some(session),
            None => false,
        }
    }

    /// Whether an open stands in this session, as one of this tree of it.
    pub fn is_of_tree(&self, id: u64, session: u64, tree: u32) -> bool
        ensures { (s : Server) → ShowsOpens self.now s → result ≡ is_of_tree s id session tree }
    {
        match self.rows.get(&id) {
            Some(row) => is_row_of(row, session, tree),
            None => false,
        }
    }

    /// The row of an open.
    pub fn row(&self, id: u64) -> Option<&Row>
        ensures { (s : Server) → ShowsOpens self.now s → OpenRowFound (option_copied result) s id }
    {
        self.rows.get(&id)
    }

    /// The parts of an open.
    pub fn find(&self, id: u64) -> Option<OpenParts>
        ensures { (s : Server) → ShowsOpens self.now s → PartsFound result s id }
    {
        match self.rows.get(&id) {
            Some(row) => Some(row.parts()),
            None => None,
        }
    }

    /// The open of a ClientGuid and a CreateGuid.
    pub fn by_guid(&self, client: u128, guid: u128) -> Option<u64>
        ensures { (s : Server) → ShowsOpens self.now s → result ≡ s.by_guid client guid }
    {
        self.guids.get(&(client, guid)).copied()
    }

    /// The id that the next create gives; none where the epoch's ids are all given.
    pub fn next_id(&self) -> Option<u64>
        ensures left { IsSome result → self.now.given < 0xffff_ffff }
        ensures shown { (s : Server) → ShowsOpens self.now s → result
            ≡ (if nat_le max_ids s.open_ids_given then None else Some (next_open s)) }
    {
        if self.given >= MAX_IDS {
            return None;
        }
        Some(self.coming())
    }

    /// Whether a file has an open.
    #[tactic(auto, using(crate::proofs::open_index::HeldLemmas::open_is), unfolding(spec_exchange::specs::Opens::file_has_open))]
    pub fn has_open(&self, file: u64) -> bool
        ensures { (s : Server) → ShowsOpens self.now s → result ≡ file_has_open s file }
    {
        match self.files.get(&file) {
            Some(row) => row.count > 0,
            None => false,
        }
    }

    /// How many opens a file has.
    #[tactic(auto, using(crate::proofs::open_index::HeldLemmas::opens_counted))]
    pub fn count_of(&self, file: u64) -> u64
        ensures { (s : Server) → ShowsOpens self.now s → result ≡ length (opens_of s file) }
    {
        match self.files.get(&file) {
            Some(row) => row.count,
            None => 0,
        }
    }

    /// Whether an open of a file with this mapped access and share access may stand beside those that do.
    #[tactic(auto, using(crate::proofs::open_index::HeldLemmas::admits_is))]
    pub fn admits(&self, file: u64, access: u32, share: u32) -> bool
        ensures { (s : Server) → ShowsOpens self.now s → result ≡ admits s.opened (opens_of s file) access share }
    {
        match self.files.get(&file) {
            Some(row) => row.shares.admits(access, share),
            None => true,
        }
    }

    /// The ranges that the opens of a file lock, in the order in which they were granted.
    pub fn ranges(&self, file: u64) -> &[Range]
        ensures shown { (s : Server) → ShowsOpens self.now s → map range_of result.now ≡ s.ranges file }
        ensures held { result.now ≡ held_of self.now file }
    {
        match self.files.get(&file) {
            Some(row) => row.ranges.as_slice(),
            None => &[],
        }
    }

    /// What a session keeps of a CreateGuid.
    pub fn kept(&self, session: u64, guid: u128) -> Option<KeptCreate>
        ensures { (s : Server) → ShowsOpens self.now s → result ≡ kept_of (s.closed session guid) (s.refused session guid) }
    {
        match self.sessions.get(&session) {
            Some(row) => kept_result(row, guid),
            None => None,
        }
    }

    /// How many CreateGuids a session used. The count stands still at the end of its type.
    pub fn guids_of(&self, session: u64) -> u64
        ensures { (s : Server) → ShowsOpens self.now s → result ≡ keep_capped (s.guids session) }
    {
        match self.sessions.get(&session) {
            Some(row) => row.guids,
            None => 0,
        }
    }

    /// Whether an open of this ClientGuid and CreateGuid expired.
    pub fn is_expired(&self, client: u128, guid: u128) -> bool
        ensures { (s : Server) → ShowsOpens self.now s → result ≡ s.expired_guids client guid }
    {
        self.expired.contains(&(client, guid))
    }

    /// How many opens expired.
    pub fn expired_count(&self) -> u32
        ensures { (s : Server) → ShowsOpens self.now s → result ≡ s.expired_count }
    {
        self.expired_count
    }

    /// Whether a channel sequence is older than the one that an open keeps.
    pub fn is_stale(&self, id: u64, n: u16) -> bool
        ensures { (s : Server) → ShowsOpens self.now s → s.standing id ≡ true → result ≡ is_stale n (s.sequence id) }
    {
        match self.rows.get(&id) {
            Some(row) => row.sequence.is_stale(n),
            None => false,
        }
    }

    /// The status that a lock slot of an open keeps of this number.
    pub fn look(&self, id: u64, index: u8, number: u8) -> Option<u32>
        requires { (1 ≤ index) × (index ≤ 64) }
        ensures { (s : Server) → ShowsOpens self.now s → s.standing id ≡ true → result ≡ kept_status number (s.lock_sequences id index) }
    {
        match self.rows.get(&id) {
            Some(row) => row.slots.look(index, number),
            None => None,
        }
    }

    /// Whether an open may read these bytes of its file: `Conflict` with the first exclusive range of another.
    pub fn may_read(&self, id: u64, at: u64, length: u64) -> Result<(), RangeError>
        ensures range { MatchResult result (λ _. read_conflict (held_by self.now id) id at length ≡ None)
            (λ e. IsConflict e (read_conflict (held_by self.now id) id at length)) }
        ensures shown { (s : Server) → ShowsOpens self.now s → s.standing id ≡ true
            → MatchResult result (λ _. may_read (s.ranges (s.opened id).file) id at length ≡ true)
            (λ _. may_read (s.ranges (s.opened id).file) id at length ≡ false) }
    {
        ranges_law();
        self.may_read_in(self.file_of(id), id, at, length)
    }

    /// Whether an open may write them: `Conflict` with the first range of another, or shared one of its own.
    pub fn may_write(&self, id: u64, at: u64, length: u64) -> Result<(), RangeError>
        ensures range { MatchResult result (λ _. write_conflict (held_by self.now id) id at length ≡ None)
            (λ e. IsConflict e (write_conflict (held_by self.now id) id at length)) }
        ensures shown { (s : Server) → ShowsOpens self.now s → s.standing id ≡ true
            → MatchResult result (λ _. may_write (s.ranges (s.opened id).file) id at length ≡ true)
            (λ _. may_write (s.ranges (s.opened id).file) id at length ≡ false) }
    {
        ranges_law();
        self.may_write_in(self.file_of(id), id, at, length)
    }

    // Whether an open may read these bytes of a file.
    fn may_read_in(&self, file: u64, id: u64, at: u64, length: u64) -> Result<(), RangeError>
        ensures { MatchResult result (λ _. read_conflict (held_of self.now file) id at length ≡ None)
            (λ e. IsConflict e (read_conflict (held_of self.now file) id at length)) }
    {
        match self.files.get(&file) {
            Some(row) => row.ranges.may_read(id, at, length),
            None => Ok(()),
        }
    }

    // Whether an open may write these bytes of a file.
    fn may_write_in(&self, file: u64, id: u64, at: u64, length: u64) -> Result<(), RangeError>
        ensures { MatchResult result (λ _. write_conflict (held_of self.now file) id at length ≡ None)
            (λ e. IsConflict e (write_conflict (held_of self.now file) id at length)) }
    {
        match self.files.get(&file) {
            Some(row) => row.ranges.may_write(id, at, length),
            None => Ok(()),
        }
    }

    /// The file of an open.
    pub fn file_of(&self, id: u64) -> u64
        ensures kept { result ≡ file_at (get nat_eq self.now.rows id) }
        ensures shown { (s : Server) → ShowsOpens self.now s → s.standing id ≡ true → result ≡ (s.opened id).file }
    {
        match self.rows.get(&id) {
            Some(row) => row.file,
            None => 0,
        }
    }

    // The id behind those that were given; where none is left, the last one.
    pub(crate) fn coming(&self) -> u64
        ensures { self.now.given < 0xffff_ffff → result ≡ next_of self.now }
    {
        u64::from(self.epoch) * 0x1_0000_0000 + u64::from(self.given.saturating_add(1))
    }
}

// What the row of a session keeps of a CreateGuid.
fn kept_result(row: &SessionOpens, guid: u128) -> Option<KeptCreate>
    ensures { result ≡ kept_result (get nat_eq row.now.results guid) }
{
    match row.results.get(&guid) {
        Some(KeptResult::Closed) => Some(KeptCreate::Closed),
        Some(KeptResult::Refused(status)) => Some(KeptCreate::Refused(*status)),
        _ => None,
    }
}

// The row is of this session, and of this tree of it.
fn is_row_of(row: &Row, session: u64, tree: u32) -> bool
    ensures { result ≡ (is_at session row.now.session && (row.now.tree == tree)) }
{
    match row.session {
        Some(kept) => (kept == session) & (row.tree == tree),
        None => false,
    }
}
