//! The checks of CREATE (MS-SMB2 3.3.5.9, 3.3.5.9.10, 3.3.5.9.12; MS-FSA 2.1.5.1).
ghost use Rattle.std.specs.Prelude.{◌≡◌, ◌<◌, ◌&&◌, ◌||◌, not, is_some, length, nat_le, nat_lt, if◌then◌else◌, true, None, Some};
ghost use Rattle.wire_commands.specs.values.Meaning.{create_of, durable_of, message_of, reconnect_of};
ghost use Rattle.spec_exchange.specs.CheckCreate.{after_names, create_check, durable_check, found_names, guid_check, is_counted_out};
ghost use Rattle.spec_exchange.specs.CheckCreate.{keeps_guid, last_file, live_check, max_files, max_guids, max_opens};
ghost use Rattle.spec_exchange.specs.CheckCreate.{missing_attributes, missing_names, names, new_check, drops_bit, empties, found_attributes, first_refusal, names_of_found};
ghost use Rattle.spec_exchange.specs.CheckCreate.{reconnect_check, shares};
ghost use Rattle.spec_exchange.specs.Commands as asks;
ghost use Rattle.spec_exchange.specs.Commands.{Command, Create, deletes_on_close};
ghost use Rattle.spec_exchange.specs.Files.{exists, find, has_parent};
ghost use Rattle.spec_exchange.specs.State.{Server};
ghost use Rattle.spec_exchange.specs.Opens.{deletes, granted, mapped, max_ids, writes};
ghost use Rattle.spec_exchange.specs.Status.{duplicate_objectid};
ghost use Rattle.spec_exchange.specs.Verdict.{Refuse};
ghost use Rattle.server_checks.specs.Looks.{row_check};
ghost use Rattle.server_checks.specs.Shown.{TablesShown};
ghost use Rattle.law_server.specs.tables.Fits.{Fits};
ghost use Rattle.server_checks.specs.verdicts.Views.{verdict_of};

use crate::attributes::{attributes_of, granted, is_read_only};
use crate::tables::{Tables, is_at};
use crate::verdicts::status::{
    ACCESS_DENIED, CANNOT_DELETE, DELETE_PENDING, DUPLICATE_OBJECTID, FILE_IS_A_DIRECTORY,
    INSUFFICIENT_RESOURCES, INVALID_PARAMETER, NOT_A_DIRECTORY, OBJECT_NAME_COLLISION,
    OBJECT_NAME_NOT_FOUND, OBJECT_PATH_NOT_FOUND, SHARING_VIOLATION,
};
use crate::verdicts::{
    Verdict, action_of, deletes_on_close, empties, has_bit, makes_file, makes_missing, mapped,
    refuse, refused_create, shared_access, writes,
};
use store_opens::{KeptCreate, Row, same_name};
use wire_commands::{CreateRequest, Durable, Message, Reconnect};

const MAX_OPENS: usize = 16_384;

const MAX_FILES: usize = 65_536;

const MAX_GUIDS: u64 = 262_144;

const LAST_FILE: u64 = 0xffff_ffff_ffff_fffe;

impl Tables {
    // On the share of the pipes no name is found, whatever the request carries.
    pub(crate) fn check_create(
        &self,
        m: &Message<'_>,
        request: &CreateRequest,
        pipes: bool,
    ) -> Verdict
        ensures { (s : Server) → Fits s → TablesShown self.now s → s.present m.now.session_id ≡ true
            → verdict_of (Create (create_of request.now)) result ≡ create_check s (message_of m.now) (create_of request.now) pipes }
    {
        if pipes {
            return refuse(OBJECT_NAME_NOT_FOUND);
        }
        match request.reconnect {
            Some(reconnect) => self.check_reconnect(m, request, reconnect),
            None => self.check_durable(m, request),
        }
    }

    fn check_durable(&self, m: &Message<'_>, request: &CreateRequest) -> Verdict
        ensures { (s : Server) → Fits s → TablesShown self.now s → s.present m.now.session_id ≡ true
            → verdict_of (Create (create_of request.now)) result
            ≡ durable_check s (message_of m.now) (create_of request.now) (create_of request.now).durable }
    {
        match request.durable {
            Some(durable) => self.check_guid(m, request, durable),
            None => self.check_new(m, request),
        }
    }

    // An open of that id and guid: attached where its session is gone or this one.
    fn check_reconnect(
        &self,
        m: &Message<'_>,
        request: &CreateRequest,
        reconnect: Reconnect,
    ) -> Verdict
        ensures { (s : Server) → Fits s → TablesShown self.now s → s.present m.now.session_id ≡ true
            → verdict_of (Create (create_of request.now)) result
            ≡ reconnect_check s (message_of m.now) (create_of request.now) (reconnect_of reconnect) }
    {
        let user = self.user(m.session_id);
        match self
            .opens
            .attach_refusal(reconnect.file, reconnect.guid, m.session_id, user)
        {
            Some(status) => refuse(status),
            None => Verdict::Attach { id: reconnect.file },
        }
    }

    fn check_guid(&self, m: &Message<'_>, request: &CreateRequest, durable: Durable) -> Verdict
        ensures { (s : Server) → Fits s → TablesShown self.now s → s.present m.now.session_id ≡ true
            → verdict_of (Create (create_of request.now)) result
            ≡ guid_check s (message_of m.now) (create_of request.now) (durable_of durable) (s.by_guid m.now.client_guid durable.guid) }
    {
        // What became of the CreateGuid is asked before counts, names and sharing, so that a create that comes again
        // doesn't act twice.
        match self.opens.by_guid(m.client_guid, durable.guid) {
            Some(id) => self.check_live(m, request, id),
            None => self.check_kept(m, request, durable),
        }
    }

    // What became of earlier opens of that guid.
    fn check_kept(&self, m: &Message<'_>, request: &CreateRequest, durable: Durable) -> Verdict
        ensures { (s : Server) → Fits s → TablesShown self.now s
            → verdict_of (Create (create_of request.now)) result
            ≡ guid_check s (message_of m.now) (create_of request.now) (durable_of durable) None }
    {
        match self.opens.kept(m.session_id, durable.guid) {
            Some(KeptCreate::Closed) => refuse(DUPLICATE_OBJECTID),
            Some(KeptCreate::Refused(status)) => self.refused_before(m, durable, status),
            None => self.check_unkept(m, request, durable),
        }
    }

    // The refusal that is kept, where no open of that guid expired.
    fn refused_before(&self, m: &Message<'_>, durable: Durable, status: u32) -> Verdict
        ensures { (c : Command) (s : Server) → TablesShown self.now s
            → verdict_of c result ≡ Refuse (if s.expired_guids m.now.client_guid durable.guid then duplicate_objectid else status) }
    {
        if self.opens.is_expired(m.client_guid, durable.guid) {
            return refuse(DUPLICATE_OBJECTID);
        }
        refuse(status)
    }

    // Nothing is kept of that guid in the session.
    fn check_unkept(&self, m: &Message<'_>, request: &CreateRequest, durable: Durable) -> Verdict
        ensures { (s : Server) → Fits s → TablesShown self.now s
            → verdict_of (Create (create_of request.now)) result
            ≡ (if s.expired_guids m.now.client_guid durable.guid then Refuse duplicate_objectid
            else new_check s (message_of m.now) (create_of request.now) (find s request.now.path)) }
    {
        if self.opens.is_expired(m.client_guid, durable.guid) {
            return refuse(DUPLICATE_OBJECTID);
        }
        self.check_new(m, request)
    }

    // A live open of that guid.
    fn check_live(&self, m: &Message<'_>, request: &CreateRequest, id: u64) -> Verdict
        ensures { (s : Server) → Fits s → TablesShown self.now s → s.present m.now.session_id ≡ true
            → s.standing id ≡ true
            → verdict_of (Create (create_of request.now)) result ≡ live_check s (message_of m.now) (create_of request.now) id }
    {
        match self.opens.row(id) {
            Some(row) => live_row(m, id, row, self.user(m.session_id)),
            None => refuse(DUPLICATE_OBJECTID),
        }
    }

    // A create whose CreateGuid is new, or that has none.
    fn check_new(&self, m: &Message<'_>, request: &CreateRequest) -> Verdict
        ensures { (s : Server) → Fits s → TablesShown self.now s
            → verdict_of (Create (create_of request.now)) result
            ≡ new_check s (message_of m.now) (create_of request.now) (find s request.now.path) }
    {
        if lacks_delete(request) {
            return refuse(ACCESS_DENIED);
        }
        // Not kept as the guid's refusal, since keeping it would count one more.
        if self.has_no_guid_left(m, request) {
            return refuse(INSUFFICIENT_RESOURCES);
        }
        let found = self.tree.find(request.path.as_str());
        if self.is_counted_out(request, found) {
            return refused_create(request, INSUFFICIENT_RESOURCES);
        }
        self.check_names(request, found)
    }

    // The session used as many CreateGuids as it may.
    fn has_no_guid_left(&self, m: &Message<'_>, request: &CreateRequest) -> bool
        ensures { (s : Server) → TablesShown self.now s
            → result ≡ (keeps_guid (create_of request.now) && nat_le max_guids (s.guids m.now.session_id)) }
    {
        if request.durable.is_none() {
            return false;
        }
        self.opens.guids_of(m.session_id) >= MAX_GUIDS
    }

    // The names, and then the sharing.
    fn check_names(&self, request: &CreateRequest, found: Option<u64>) -> Verdict
        ensures { (s : Server) → TablesShown self.now s → found ≡ find s request.now.path
            → verdict_of (Create (create_of request.now)) result
            ≡ after_names s (create_of request.now) found (names s (create_of request.now) found) }
    {
        match self.names(request, found) {
            Some(status) => refused_create(request, status),
            None => self.check_sharing(request, found),
        }
    }

    fn check_sharing(&self, request: &CreateRequest, found: Option<u64>) -> Verdict
        ensures { (s : Server) → TablesShown self.now s
            → verdict_of (Create (create_of request.now)) result ≡ after_names s (create_of request.now) found None }
    {
        if !self.shares(request, found) {
            return refused_create(request, SHARING_VIOLATION);
        }
        Verdict::Make {
            found,
            action: action_of(request, found),
        }
    }

    // A count stands at its limit.
    fn is_counted_out(&self, request: &CreateRequest, found: Option<u64>) -> bool
        ensures { (s : Server) → TablesShown self.now s → result ≡ is_counted_out s (create_of request.now) found }
    {
        if self.has_no_open_left() {
            return true;
        }
        if makes_file(request, found) {
            return self.has_no_file_left();
        }
        false
    }

    fn has_no_open_left(&self) -> bool
        ensures { (s : Server) → TablesShown self.now s
            → result ≡ (nat_le max_opens (length s.opens) || nat_le max_ids s.open_ids_given) }
    {
        self.opens.count() >= MAX_OPENS || self.has_no_id_left()
    }

    fn has_no_file_left(&self) -> bool
        ensures { (s : Server) → TablesShown self.now s
            → result ≡ (nat_le max_files (length s.entries) || nat_lt last_file s.next_file) }
    {
        self.tree.count() >= MAX_FILES || self.tree.next_file() > LAST_FILE
    }

    // The ids of the epoch are all given.
    fn has_no_id_left(&self) -> bool
        ensures { (s : Server) → TablesShown self.now s → result ≡ nat_le max_ids s.open_ids_given }
    {
        match self.opens.next_id() {
            Some(_) => false,
            None => true,
        }
    }

    #[tactic(auto, unfolding(spec_exchange::specs::CheckCreate::names))]
    fn names(&self, request: &CreateRequest, found: Option<u64>) -> Option<u32>
        ensures { (s : Server) → TablesShown self.now s → found ≡ find s request.now.path
            → result ≡ names s (create_of request.now) found }
    {
        let path = request.path.as_str();
        if self.lacks_parent(path, found) {
            return Some(OBJECT_PATH_NOT_FOUND);
        }
        // Also of what is there: a directory that is to go takes no further open below it.
        if self.tree.has_pending_parent(path) {
            return Some(DELETE_PENDING);
        }
        self.names_there(request, found)
    }

    // Nothing is there, nor the directory in which it would stand.
    fn lacks_parent(&self, path: &str, found: Option<u64>) -> bool
        ensures { (s : Server) → TablesShown self.now s → result ≡ not (is_some found || has_parent s path.now) }
    {
        if found.is_some() {
            return false;
        }
        !self.tree.has_parent(path)
    }

    #[tactic(auto, unfolding(spec_exchange::specs::CheckCreate::names_of_found))]
    fn names_there(&self, request: &CreateRequest, found: Option<u64>) -> Option<u32>
        ensures { (s : Server) → TablesShown self.now s → found ≡ find s request.now.path
            → result ≡ names_of_found s (create_of request.now) found }
    {
        match found {
            Some(file) => self.found_refusal(request, file),
            None => missing_refusal(request),
        }
    }

    // What is there: its names and kind, and behind them its attributes.
    fn found_refusal(&self, request: &CreateRequest, file: u64) -> Option<u32>
        ensures { (s : Server) → TablesShown self.now s → exists s file ≡ true
            → result ≡ first_refusal (found_names s (create_of request.now) file) (found_attributes s (create_of request.now) file) }
    {
        match self.found_names(request, file) {
            Some(status) => Some(status),
            None => self.found_attributes(request, file),
        }
    }

    // What the attributes of a file forbid (MS-FSA 2.1.5.1.2, 2.1.5.1.2.1).
    #[tactic(auto, unfolding(spec_exchange::specs::CheckCreate::found_attributes))]
    fn found_attributes(&self, request: &CreateRequest, file: u64) -> Option<u32>
        ensures { (s : Server) → TablesShown self.now s → exists s file ≡ true
            → result ≡ found_attributes s (create_of request.now) file }
    {
        if empties(request.disposition) && self.drops_bits(request, file) {
            return Some(ACCESS_DENIED);
        }
        let read_only = is_read_only(&self.tree, file);
        if read_only && self.asks_to_write(request, file) {
            return Some(ACCESS_DENIED);
        }
        if read_only && deletes_on_close(request.options) {
            return Some(CANNOT_DELETE);
        }
        None
    }

    // HIDDEN or SYSTEM, which the file has, isn't asked for.
    fn drops_bits(&self, request: &CreateRequest, file: u64) -> bool
        ensures { (s : Server) → TablesShown self.now s → exists s file ≡ true
            → result ≡ (drops_bit s (create_of request.now) file 0x2 || drops_bit s (create_of request.now) file 0x4) }
    {
        let kept = attributes_of(&self.tree, file);
        drops_bit(kept, request.attributes, 0x2) || drops_bit(kept, request.attributes, 0x4)
    }

    fn asks_to_write(&self, request: &CreateRequest, file: u64) -> bool
        ensures { (s : Server) → TablesShown self.now s
            → result ≡ (empties request.now.disposition || writes (granted s file request.now.access)) }
    {
        empties(request.disposition) || writes(granted(&self.tree, file, request.access))
    }

    // What is there: the status of the first rule that it breaks.
    #[tactic(auto, unfolding(spec_exchange::specs::CheckCreate::found_names))]
    fn found_names(&self, request: &CreateRequest, file: u64) -> Option<u32>
        ensures { (s : Server) → TablesShown self.now s → exists s file ≡ true
            → result ≡ found_names s (create_of request.now) file }
    {
        let is_directory = self.is_directory(file);
        if self.is_pending(file) {
            return Some(DELETE_PENDING);
        }
        if request.disposition == 2 {
            return Some(OBJECT_NAME_COLLISION);
        }
        if has_bit(request.options, 0x1) && !is_directory {
            return Some(NOT_A_DIRECTORY);
        }
        if has_bit(request.options, 0x40) && is_directory {
            return Some(FILE_IS_A_DIRECTORY);
        }
        if empties(request.disposition) && is_directory {
            return Some(INVALID_PARAMETER);
        }
        if deletes_on_close(request.options) && file == 0 {
            return Some(ACCESS_DENIED);
        }
        None
    }

    fn shares(&self, request: &CreateRequest, found: Option<u64>) -> bool
        ensures { (s : Server) → TablesShown self.now s → result ≡ shares s (create_of request.now) found }
    {
        match found {
            Some(file) => self.admits(request, file),
            None => true,
        }
    }

    fn admits(&self, request: &CreateRequest, file: u64) -> bool
        ensures { (s : Server) → TablesShown self.now s → result ≡ shares s (create_of request.now) (Some file) }
    {
        let access = granted(&self.tree, file, request.access);
        self.opens.admits(
            file,
            shared_access(request.disposition, access),
            request.share,
        )
    }
}

fn drops_bit(kept: u32, asked: u32, bit: u32) -> bool
    requires { 0 < bit }
    ensures { result ≡ (asks.has_bit kept bit && not (asks.has_bit asked bit)) }
{
    has_bit(kept, bit) && !has_bit(asked, bit)
}

// Of what is missing: its name, and behind it the attributes with which it would be made.
fn missing_refusal(request: &CreateRequest) -> Option<u32>
    ensures { result ≡ first_refusal (missing_names (create_of request.now)) (missing_attributes (create_of request.now)) }
{
    match missing_names(request) {
        Some(status) => Some(status),
        None => missing_attributes(request),
    }
}

#[tactic(auto, unfolding(spec_exchange::specs::CheckCreate::missing_attributes))]
fn missing_attributes(request: &CreateRequest) -> Option<u32>
    ensures { result ≡ missing_attributes (create_of request.now) }
{
    if deletes_on_close(request.options) && makes_read_only(request) {
        Some(CANNOT_DELETE)
    } else {
        None
    }
}

// The file that is made, no directory, would be read-only.
fn makes_read_only(request: &CreateRequest) -> bool
    ensures { result ≡ (not (asks.asks_directory (create_of request.now)) && asks.has_bit request.now.attributes 0x1) }
{
    !has_bit(request.options, 0x1) && has_bit(request.attributes, 0x1)
}

#[tactic(auto, unfolding(spec_exchange::specs::CheckCreate::missing_names))]
fn missing_names(request: &CreateRequest) -> Option<u32>
    ensures { result ≡ missing_names (create_of request.now) }
{
    if makes_missing(request.disposition) {
        None
    } else {
        Some(OBJECT_NAME_NOT_FOUND)
    }
}

// The request may not delete, and is to delete on close.
#[tactic(auto, unfolding(spec_exchange::specs::Opens::deletes))]
fn lacks_delete(request: &CreateRequest) -> bool
    ensures { result
        ≡ (deletes_on_close (create_of request.now).options && not (deletes (mapped (create_of request.now).access))) }
{
    deletes_on_close(request.options) && !has_bit(mapped(request.access), 0x1_0000)
}

// The first answer again where the replay flag is set and the open is this session's, or persistent and nobody's.
fn live_row(m: &Message<'_>, id: u64, row: &Row, user: &str) -> Verdict
    ensures { (request : asks.CreateRequest) → verdict_of (Create request) result
        ≡ row_check (message_of m.now) request id row.now user.now }
{
    if !m.replay {
        return refuse(DUPLICATE_OBJECTID);
    }
    if is_at(m.session_id, row.session) {
        return Verdict::Repeat { id };
    }
    if is_others(row) {
        return refuse(DUPLICATE_OBJECTID);
    }
    if same_name(row.user.as_str(), user) {
        return Verdict::Repeat { id };
    }
    refuse(ACCESS_DENIED)
}

fn is_others(row: &Row) -> bool
    ensures { result ≡ (is_some row.now.session || not row.now.persistent) }
{
    row.session.is_some() || !row.persistent
}
