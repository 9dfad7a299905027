//! Room in the rows of sessions, and opens that are attached.
ghost use Rattle.std.specs.Prelude.{◌≡◌, ◌<◌, ◌==◌, ℕ, true, false, not, ◌&&◌, if◌then◌else◌, nat_eq, None, Some};
ghost use Rattle.std.specs.Prelude.{OnOk, IfSome, MatchResult, is_some};
ghost use Rattle.spec_exchange.specs.State.{Server};
ghost use Rattle.spec_exchange.specs.Table.{is_at};
ghost use Rattle.spec_exchange.specs.CheckCreate.{has_guid};
ghost use Rattle.spec_exchange.specs.Texts.{same_name};
ghost use Rattle.spec_exchange.specs.Effects.{keep_refusal};
ghost use Rattle.store_opens.specs.open_table.Shown.{ShowsOpens, HasOpensRoom, HasRoomIn, HasOpensSessionRoom};
ghost use Rattle.store_opens.specs.open_table.Shown.{HasPlainPlace, HasResultRoom, next_of};
ghost use Rattle.store_opens.specs.open_table.Rows.{attached_row, guid_at};
ghost use Rattle.store_opens.specs.open_table.Left.{IsUndatedIn};
ghost use Rattle.store_opens.specs.open_table.Changes.{row_refusal, attach_refusal, attached_to, attached_if, OpenTells};
ghost use Rattle.std.specs.HashMap.{get, hash_map_len};

use crate::channel_sequence::Seen;
use crate::open_index::{attach_in, count_in, list_in, refuse_in, reserve_guid};
use crate::open_table::due::deadline_at;
use crate::open_table::error::OpenError;
use crate::open_table::row::Row;
use crate::open_table::rows::{reserve_files, reserve_names, reserve_rows};
use crate::open_table::table::Opens;
use std::alloc::AllocError;
use std::collections::HashMap;

// Statuses (MS-ERREF 2.3.1).
const ACCESS_DENIED: u32 = 0xc000_0022;

const OBJECT_NAME_NOT_FOUND: u32 = 0xc000_0034;

impl Opens {
    /// Makes room for what becomes of one more CreateGuid of a session.
    pub fn reserve_result(&mut self, session: u64) -> Result<(), AllocError>
        ensures same { (s : Server) → ShowsOpens self.old s → ShowsOpens self.new s }
        ensures room { OnOk result (HasResultRoom self.new session) }
        ensures rest { HasOpensRoom self.old → HasOpensRoom self.new }
        ensures given { self.new.given ≡ self.old.given }
        ensures undated { self.new.undated.items ≡ self.old.undated.items }
    {
        reserve_guid(&mut self.sessions, self.alloc, session)
    }

    /// Makes room for an open that stands in the row of a session, and for its CreateGuid.
    pub fn reserve_in(&mut self, session: u64, id: u64) -> Result<(), AllocError>
        ensures same { (s : Server) → ShowsOpens self.old s → ShowsOpens self.new s }
        ensures room { OnOk result (HasOpensSessionRoom self.new session id) }
        ensures rest { HasOpensRoom self.old → HasOpensRoom self.new }
        ensures ids { next_of self.new ≡ next_of self.old }
        ensures given { self.new.given ≡ self.old.given }
        ensures undated { self.new.undated.items ≡ self.old.undated.items }
    {
        let is_plain = self.is_plain(id);
        reserve_guid(&mut self.sessions, self.alloc, session)?;
        list_in(&mut self.sessions, session, id, is_plain)
    }

    // Whether an open stands that isn't persistent.
    fn is_plain(&self, id: u64) -> bool
        ensures { result ≡ false → HasPlainPlace (get nat_eq self.now.rows id) false }
    {
        match self.rows.get(&id) {
            Some(row) => !row.persistent,
            None => false,
        }
    }

    // Makes room for a new open in the row of its session, and for its CreateGuid.
    pub(crate) fn reserve_new(
        &mut self,
        session: u64,
        id: u64,
        persistent: bool,
    ) -> Result<(), AllocError>
        ensures same { (s : Server) → ShowsOpens self.old s → ShowsOpens self.new s }
        ensures room { OnOk result (HasRoomIn self.new (Some session) id persistent) }
        ensures rest { HasOpensRoom self.old → HasOpensRoom self.new }
        ensures ids { next_of self.new ≡ next_of self.old }
        ensures given { self.new.given ≡ self.old.given }
        ensures undated { self.new.undated ≡ self.old.undated }
    {
        reserve_guid(&mut self.sessions, self.alloc, session)?;
        list_in(&mut self.sessions, session, id, !persistent)
    }

    // Makes room for one more row.
    pub(crate) fn reserve_row(&mut self) -> Result<(), AllocError>
        ensures same { (s : Server) → ShowsOpens self.old s → ShowsOpens self.new s }
        ensures room { OnOk result (HasOpensRoom self.new) }
        ensures rest { HasOpensRoom self.old → HasOpensRoom self.new }
        ensures ids { next_of self.new ≡ next_of self.old }
        ensures given { self.new.given ≡ self.old.given }
        ensures undated { self.new.undated ≡ self.old.undated }
        ensures expired { self.new.expired ≡ self.old.expired }
    {
        reserve_rows(&mut self.rows)?;
        reserve_names(&mut self.guids)?;
        reserve_files(&mut self.files)
    }

    /// Keeps a refusal for which `reserve_result` made room. It takes no memory.
    pub fn put_refusal(&mut self, session: u64, guid: u128, status: u32)
        requires { HasResultRoom self.old session }
        ensures { (s : Server) → ShowsOpens self.old s → s.closed session guid ≡ false
            → ShowsOpens self.new (keep_refusal s session guid status) }
    {
        refuse_in(&mut self.sessions, session, guid, status);
        count_in(&mut self.sessions, session);
    }

    /// The status with which an attach is refused (MS-SMB2 3.3.5.9.12). `user` is the session's.
    pub fn attach_refusal(&self, id: u64, guid: u128, session: u64, user: &str) -> Option<u32>
        ensures { (s : Server) → ShowsOpens self.now s → result ≡ attach_refusal s id guid session user.now }
    {
        match self.rows.get(&id) {
            Some(row) => row_refusal(row, guid, session, user),
            None => Some(OBJECT_NAME_NOT_FOUND),
        }
    }

    /// Attaches an open without a session to this one and a tree of it, where `reserve_in` made room. One that has a session
    /// stays as it is. It takes no memory.
    pub fn put_attached(&mut self, id: u64, session: u64, tree: u32, sequence: u16)
        requires { HasOpensSessionRoom self.old session id }
        ensures { (s : Server) → ShowsOpens self.old s → s.standing id ≡ true → ShowsOpens self.new (attached_if s id session tree sequence) }
    {
        if self.is_without_session(id) {
            self.attach_one(id, session, tree, sequence);
        }
    }

    // An open without a session becomes this one's.
    fn attach_one(&mut self, id: u64, session: u64, tree: u32, sequence: u16)
        requires { HasOpensSessionRoom self.old session id }
        ensures gone { IfSome (get nat_eq self.old.rows id) (λ row. IsUndatedIn self.new row id) }
        ensures shows { (s : Server) → ShowsOpens self.old s → s.standing id ≡ true
            → ShowsOpens self.new (attached_to s id session tree sequence) }
    {
        let deadline = deadline_at(&self.rows, id);
        self.deadlines.forget(deadline, id);
        let guid = attach_row(&mut self.rows, id, session, tree, sequence);
        attach_in(&mut self.sessions, session, guid);
    }

    // Whether an open has no session.
    fn is_without_session(&self, id: u64) -> bool
        ensures { (s : Server) → ShowsOpens self.now s → s.standing id ≡ true → result ≡ not (is_some (s.session_of_open id)) }
    {
        match self.rows.get(&id) {
            Some(row) => row.session.is_none(),
            None => false,
        }
    }

    /// Attaches an open of this id and CreateGuid to a session and a tree of it, as a reconnect asks (MS-SMB2 3.3.5.9.12).
    pub fn attach(
        &mut self,
        id: u64,
        guid: u128,
        session: u64,
        tree: u32,
        user: &str,
        sequence: u16,
    ) -> Result<(), OpenError>
        ensures { (s : Server) → ShowsOpens self.old s
            → MatchResult result (λ _. (attach_refusal s id guid session user.now ≡ None)
            × ShowsOpens self.new (attached_if s id session tree sequence))
            (λ e. OpenTells e (attach_refusal s id guid session user.now) × ShowsOpens self.new s) }
    {
        if let Some(status) = self.attach_refusal(id, guid, session, user) {
            return Err(OpenError::Status(status));
        }
        match self.reserve_in(session, id) {
            Ok(()) => {
                self.put_attached(id, session, tree, sequence);
                return Ok(());
            }
            Err(_) => return Err(OpenError::Memory),
        }
    }
}

// The status with which an attach to the open of a row is refused.
fn row_refusal(row: &Row, guid: u128, session: u64, user: &str) -> Option<u32>
    ensures { result ≡ row_refusal row.now guid session user.now }
{
    if !has_guid(row.guid, guid) {
        return Some(OBJECT_NAME_NOT_FOUND);
    }
    if !same_name(row.user.as_str(), user) {
        return Some(ACCESS_DENIED);
    }
    if is_elsewhere(row.session, session) {
        return Some(OBJECT_NAME_NOT_FOUND);
    }
    None
}

fn has_guid(kept: Option<u128>, guid: u128) -> bool
    ensures { result ≡ has_guid guid kept }
{
    match kept {
        Some(kept) => kept == guid,
        None => false,
    }
}

// There is a session, and it is another.
fn is_elsewhere(kept: Option<u64>, session: u64) -> bool
    ensures { result ≡ (is_some kept && not (is_at session kept)) }
{
    match kept {
        Some(kept) => kept != session,
        None => false,
    }
}

// The row of an open is the session's, with the request's tree and sequence. Tells its CreateGuid.
fn attach_row(
    rows: &mut HashMap<u64, Row>,
    id: u64,
    session: u64,
    tree: u32,
    sequence: u16,
) -> Option<u128>
    ensures rows { (q : ℕ) → get nat_eq rows.new q
        ≡ (if q == id then attached_row session tree sequence (get nat_eq rows.old q) else get nat_eq rows.old q) }
    ensures len { hash_map_len rows.new ≡ hash_map_len rows.old }
    ensures guid { result ≡ guid_at (get nat_eq rows.old id) }
{
    match rows.get_mut(&id) {
        Some(row) => {
            row.session = Some(session);
            row.tree = tree;
            row.sequence = Seen::new(sequence);
            row.deadline = None;
            row.guid
        }
        None => None,
    }
}

/// Equal but for the case of ASCII letters, as users are compared.
pub fn same_name(a: &str, b: &str) -> bool
    ensures { result ≡ same_name a.now b.now }
{
    a.eq_ignore_ascii_case(b)
}
