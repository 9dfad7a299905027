//! Opens that a create makes, or that the journal tells.
ghost use Rattle.std.specs.Prelude.{◌≡◌, ◌+◌, ◌<◌, ◌==◌, ◌^◌, ◌∷◌, ℕ, List, length, if◌then◌else◌, true, false};
ghost use Rattle.std.specs.Prelude.{None, Some, OnOk, IfOk, MatchResult, nat_le, nat_eq, vec_len};
ghost use Rattle.std.specs.Prelude.{vec_capacity};
ghost use Rattle.spec_exchange.specs.State.{Server, Range};
ghost use Rattle.std.specs.HashMap.{get, hash_map_len};
ghost use Rattle.spec_exchange.specs.Table.{has};
ghost use Rattle.spec_exchange.specs.Opens.{with_guid};
ghost use Rattle.spec_exchange.specs.CheckCreate.{max_guids};
ghost use Rattle.spec_exchange.specs.Effects.{next_open, keep_refusal};
ghost use Rattle.law_server.specs.tables.Fits.{Fits};
ghost use Rattle.store_opens.specs.open_table.Shown.{pair_eq, ShowsOpens, HasOpensRoom, HasRoomIn};
ghost use Rattle.store_opens.specs.open_table.Shown.{next_of};
ghost use Rattle.store_opens.specs.open_table.Rows.{IsOpenNewRow, IsRestoredRow, open_of};
ghost use Rattle.store_opens.specs.open_index.Held.{HeldShown, sharing_of};
ghost use Rattle.store_opens.specs.declared.share_modes.lists.Open.{Open};
ghost use Rattle.store_opens.specs.open_table.Changes.{create_refusal, created, restore_refusal, restored, epoch_begun};
ghost use Rattle.store_opens.specs.open_table.Changes.{guids_full, OpenTells};
ghost use Rattle.store_opens.specs.declared.open_table.row.OpenParts.{OpenParts};

use crate::open_index::{count_open, stand_new};
use crate::open_table::error::OpenError;
use crate::open_table::row::{OpenParts, Row};
use crate::open_table::rows::{name_open, put_row, sharing_of};
use crate::open_table::table::Opens;
use std::alloc::AllocError;

// The limits of opens and of CreateGuids that a session keeps.
const MAX_OPENS: usize = 16_384;

const MAX_GUIDS: u64 = 262_144;

// Statuses (MS-ERREF 2.3.1).
const INSUFFICIENT_RESOURCES: u32 = 0xc000_009a;

const DUPLICATE_OBJECTID: u32 = 0xc000_022a;

impl Opens {
    /// Makes room for the open that comes next, in the row of its session, and for its CreateGuid.
    pub fn reserve(&mut self, session: Option<u64>, persistent: bool) -> Result<(), AllocError>
        ensures same { (s : Server) → ShowsOpens self.old s → ShowsOpens self.new s }
        ensures rest { HasOpensRoom self.old → HasOpensRoom self.new }
        ensures ids { next_of self.new ≡ next_of self.old }
        ensures given { self.new.given ≡ self.old.given }
        ensures undated { self.new.undated.items ≡ self.old.undated.items }
        ensures room { self.old.given < 0xffff_ffff
            → OnOk result (HasOpensRoom self.new × HasRoomIn self.new session (next_of self.new) persistent) }
    {
        self.reserve_row()?;
        match session {
            Some(session) => {
                let id = self.coming();
                self.reserve_new(session, id, persistent)
            }
            None => self.undated.reserve(1),
        }
    }

    /// Makes an open of the next id, which it answers.
    pub fn create(&mut self, made: &OpenParts, user: &str) -> Result<u64, OpenError>
        ensures { (s : Server) → Fits s → ShowsOpens self.old s
            → MatchResult result (λ id. (create_refusal s made.now ≡ None) × (id ≡ next_open s)
            × ShowsOpens self.new (created s made.now user.now))
            (λ e. OpenTells e (create_refusal s made.now) × ShowsOpens self.new s) }
    {
        if let Some(status) = self.create_refusal(made) {
            return Err(OpenError::Status(status));
        }
        match self.ready(made, user) {
            Ok(row) => return Ok(self.add(row)),
            Err(_) => return Err(OpenError::Memory),
        }
    }

    // A row for a new open, and room for it.
    fn ready(&mut self, made: &OpenParts, user: &str) -> Result<Row, AllocError>
        ensures same { (s : Server) → ShowsOpens self.old s → ShowsOpens self.new s }
        ensures given { self.new.given ≡ self.old.given }
        ensures row { IfOk result (λ r. IsOpenNewRow r made.now user.now) }
        ensures room { self.old.given < 0xffff_ffff → IfOk result (λ r. HasOpensRoom self.new × HasRoomIn self.new r.session
            (next_of self.new) r.persistent) }
    {
        let row = Row::new(self.alloc, made, user)?;
        match self.reserve(row.session, row.persistent) {
            Ok(()) => return Ok(row),
            Err(error) => return Err(error),
        }
    }

    /// The status with which a create is refused for a count that stands at its limit.
    pub fn create_refusal(&self, made: &OpenParts) -> Option<u32>
        ensures left { result ≡ None → self.now.given < 0xffff_ffff }
        ensures shown { (s : Server) → ShowsOpens self.now s → result ≡ create_refusal s made.now }
    {
        if self.count() >= MAX_OPENS
            || self.next_id().is_none()
            || self.guids_full(made.session, made.guid)
        {
            return Some(INSUFFICIENT_RESOURCES);
        }
        None
    }

    // A CreateGuid is to be kept, and the session keeps as many as it may.
    fn guids_full(&self, session: Option<u64>, guid: Option<u128>) -> bool
        ensures { (s : Server) → ShowsOpens self.now s → result ≡ guids_full s session guid }
    {
        match (session, guid) {
            (Some(session), Some(_)) => self.is_full(session),
            _ => false,
        }
    }

    // The session keeps as many CreateGuids as it may.
    fn is_full(&self, session: u64) -> bool
        ensures { (s : Server) → ShowsOpens self.now s → result ≡ nat_le max_guids (s.guids session) }
    {
        self.guids_of(session) >= MAX_GUIDS
    }

    /// Makes the open of a row that `Row::new` made, where `reserve` made room for it. It takes no memory.
    pub fn add(&mut self, row: Row) -> u64
        requires { HasOpensRoom self.old × HasRoomIn self.old row.session (next_of self.old) row.persistent
            × (self.old.given < 0xffff_ffff) }
        ensures { (s : Server) (p : OpenParts) → Fits s → ShowsOpens self.old s → IsOpenNewRow row p row.user
            → (result ≡ next_open s) × ShowsOpens self.new (created s p row.user) }
    {
        let id = self.coming();
        self.given = self.given.saturating_add(1);
        stand_new(&mut self.sessions, row.session, row.guid);
        note_new(&mut self.undated, row.session, id);
        self.place(id, row);
        id
    }

    // The row stands at a new id, with what names it and what it holds of its file.
    pub(crate) fn place(&mut self, id: u64, row: Row)
        requires { HasOpensRoom self.old }
        ensures rows { (q : ℕ) → get nat_eq self.new.rows q ≡ (if q == id then Some row else get nat_eq self.old.rows q) }
        ensures len { get nat_eq self.old.rows id ≡ None → hash_map_len self.new.rows ≡ hash_map_len self.old.rows + 1 }
        ensures guids { (c g : ℕ) → get pair_eq self.new.guids (c, g)
            ≡ with_guid (λ d h. get pair_eq self.old.guids (d, h)) row.client row.guid (Some id) c g }
        ensures file { (os : List Open) (ranges : List Range) → length os + 1 < 2 ^ 64
            → HeldShown (get nat_eq self.old.files row.file) os ranges → HeldShown (get nat_eq self.new.files row.file)
            (sharing_of id (open_of row) ∷ os) ranges }
        ensures files { (q : ℕ) → (q == row.file) ≡ false → get nat_eq self.new.files q ≡ get nat_eq self.old.files q }
        ensures rest { self.new ≡ record self.old { rows = self.new.rows; guids = self.new.guids; files = self.new.files } }
    {
        let one = sharing_of(id, &row);
        count_open(&mut self.files, self.alloc, row.file, one);
        name_open(&mut self.guids, row.client, row.guid, id);
        put_row(&mut self.rows, id, row);
    }

    /// Makes an open of this id, which the journal tells: it has no session, and no deadline before the next event.
    pub fn restore(&mut self, id: u64, made: &OpenParts, user: &str) -> Result<(), OpenError>
        ensures { (s : Server) → Fits s → ShowsOpens self.old s
            → MatchResult result (λ _. (restore_refusal s id ≡ None) × ShowsOpens self.new (restored s id made.now user.now))
            (λ e. OpenTells e (restore_refusal s id) × ShowsOpens self.new s) }
    {
        if let Some(status) = self.restore_refusal(id) {
            return Err(OpenError::Status(status));
        }
        match self.ready_to_restore(id, made, user) {
            Ok(row) => {
                self.put_restored(id, row);
                return Ok(());
            }
            Err(_) => return Err(OpenError::Memory),
        }
    }

    // A row without a session, room for it, and its id among those that wait for their deadline.
    pub(crate) fn ready_to_restore(
        &mut self,
        id: u64,
        made: &OpenParts,
        user: &str,
    ) -> Result<Row, AllocError>
        ensures same { (s : Server) → ShowsOpens self.old s → ShowsOpens self.new s }
        ensures row { IfOk result (λ r. IsRestoredRow r made.now user.now) }
        ensures room { OnOk result (HasOpensRoom self.new) }
        ensures noted { OnOk result (has id self.new.undated.items ≡ true) }
    {
        let row = Row::new(self.alloc, made, user)?;
        self.reserve_row()?;
        self.note(id)?;
        Ok(without_session(row))
    }

    // The open is among those that wait for their deadline.
    fn note(&mut self, id: u64) -> Result<(), AllocError>
        ensures same { (s : Server) → ShowsOpens self.old s → ShowsOpens self.new s }
        ensures noted { OnOk result (has id self.new.undated.items ≡ true) }
        ensures room { HasOpensRoom self.old → HasOpensRoom self.new }
    {
        note_undated(&mut self.undated, id)
    }

    // The row stands at an id of the epoch, of which none is given again.
    fn put_restored(&mut self, id: u64, row: Row)
        requires { HasOpensRoom self.old }
        ensures { (s : Server) (p : OpenParts) (user : List ℕ) → Fits s → ShowsOpens self.old s → restore_refusal s id
            ≡ None → has id self.old.undated.items ≡ true
            → IsRestoredRow row p user → ShowsOpens self.new (restored s id p user) }
    {
        self.given = self.given.max((id % 0x1_0000_0000) as u32);
        self.place(id, row);
    }

    // The status with which a restored open is refused.
    fn restore_refusal(&self, id: u64) -> Option<u32>
        ensures { (s : Server) → ShowsOpens self.now s → result ≡ restore_refusal s id }
    {
        if self.count() >= MAX_OPENS || self.next_id().is_none() {
            return Some(INSUFFICIENT_RESOURCES);
        }
        if self.stands(id)
            || id / 0x1_0000_0000 != u64::from(self.epoch)
            || id % 0x1_0000_0000 == 0
        {
            return Some(DUPLICATE_OBJECTID);
        }
        None
    }

    /// The ids of creates count from 1 in a new epoch.
    pub fn begin_epoch(&mut self, epoch: u32)
        ensures { (s : Server) → ShowsOpens self.old s → ShowsOpens self.new (epoch_begun s epoch) }
    {
        self.epoch = epoch;
        self.given = 0;
    }

    /// A session keeps that the create of this CreateGuid, of which it closed no open, was refused with this status.
    pub fn keep_refusal(&mut self, session: u64, guid: u128, status: u32) -> Result<(), OpenError>
        ensures { (s : Server) → ShowsOpens self.old s → s.closed session guid ≡ false
            → MatchResult result (λ _. (nat_le max_guids (s.guids session) ≡ false)
            × ShowsOpens self.new (keep_refusal s session guid status))
            (λ e. OpenTells e (if nat_le max_guids (s.guids session) then Some 0xc000_009a else None) × ShowsOpens self.new s) }
    {
        if self.is_full(session) {
            return Err(OpenError::Status(INSUFFICIENT_RESOURCES));
        }
        match self.reserve_result(session) {
            Ok(()) => {
                self.put_refusal(session, guid, status);
                return Ok(());
            }
            Err(_) => return Err(OpenError::Memory),
        }
    }
}

// The open is among those that wait for their deadline.
fn note_undated(undated: &mut Vec<u64>, id: u64) -> Result<(), AllocError>
    ensures noted { OnOk result (has id undated.new.items ≡ true) }
    ensures others { (o : ℕ) → has o undated.old.items ≡ true → has o undated.new.items ≡ true }
{
    match undated.push(id) {
        Ok(()) => return Ok(()),
        Err(_) => return Err(AllocError),
    }
}

// A new open without a session is among them.
fn note_new(undated: &mut Vec<u64>, session: Option<u64>, id: u64)
    requires { session ≡ None → vec_len undated.old < vec_capacity undated.old }
    ensures noted { session ≡ None → has id undated.new.items ≡ true }
    ensures others { (o : ℕ) → has o undated.old.items ≡ true → has o undated.new.items ≡ true }
{
    if session.is_none() {
        push_undated(undated, id);
    }
}

fn push_undated(undated: &mut Vec<u64>, id: u64)
    requires { vec_len undated.old < vec_capacity undated.old }
    ensures noted { has id undated.new.items ≡ true }
    ensures others { (o : ℕ) → has o undated.old.items ≡ true → has o undated.new.items ≡ true }
{
    let _ = undated.push(id);
}

fn without_session(mut row: Row) -> Row
    ensures { result ≡ record row { session = None } }
{
    row.session = None;
    row
}
