//! The checks of the requests that name an open (MS-SMB2 3.3.5.10 to 3.3.5.20), but for SET_INFO.
ghost use Rattle.std.specs.Prelude.{◌≡◌, ◌+◌, ◌<◌, ◌||◌, ℕ, true, IfOk, List, MatchResult, None, Option, Some, is_some};
ghost use Rattle.std.specs.Prelude.{length, map, option_map};
ghost use Rattle.wire_commands.specs.values.Meaning.{body_of, command_of, message_of, named_of};
ghost use Rattle.spec_exchange.specs.CheckOpen.{begins_at, bytes_change, close_check, file_of, file_query_check, flush_check};
ghost use Rattle.spec_exchange.specs.CheckOpen.{free_ioctl_check, has_access, ioctl_body, ioctl_check, is_repeated, kept_lock, list_check};
ghost use Rattle.spec_exchange.specs.CheckOpen.{list_from, listing_of, needs_attributes, range_check};
ghost use Rattle.spec_exchange.specs.CheckOpen.{lock_check, new_lock_check, read_check, timely_write, volume_query_check};
ghost use Rattle.spec_exchange.specs.CheckOpen.{none_wanted, write_check};
ghost use Rattle.spec_exchange.specs.Commands.{Command};
ghost use Rattle.spec_exchange.specs.Files.{exists, info_of, path_of};
ghost use Rattle.spec_exchange.specs.Ranges.{RangeAnswer, Stands, change_ranges, ranges_of};
ghost use Rattle.spec_exchange.specs.State as says;
ghost use Rattle.spec_exchange.specs.State.{FileInfo, Interfaces, Listing, Server};
ghost use Rattle.spec_exchange.specs.Table.{is_filled};
ghost use Rattle.store_files.specs.file_tree.Listed.{model_named};
ghost use Rattle.store_opens.specs.open_table.Locks.{DeniedBy};
ghost use Rattle.server_checks.specs.Looks.{IsListingLast, IsListingShort, bytes_or_full, new_bytes, read_bytes};
ghost use Rattle.server_checks.specs.Shown.{TablesShown};
ghost use Rattle.spec_exchange.specs.Verdict.{Behind, Show, Tell};
ghost use Rattle.law_server.specs.tables.Fits.{Fits};
ghost use Rattle.server_checks.specs.verdicts.Views.{bytes_in, elements_in, verdict_of};
ghost use Rattle.store_opens.specs.share_modes.Answers.{AllOf};
ghost use Rattle.store_opens.specs.share_modes.Locking.{range_of};

use crate::tables::{Tables, info_of};
use crate::verdicts::status::{
    ACCESS_DENIED, DISK_FULL, END_OF_FILE, FILE_CLOSED, FILE_LOCK_CONFLICT, FILE_NOT_AVAILABLE,
    INFO_LENGTH_MISMATCH, INVALID_DEVICE_REQUEST, INVALID_PARAMETER, NO_MORE_FILES, NO_SUCH_FILE,
    OBJECT_NAME_NOT_FOUND, SUCCESS,
};
use crate::verdicts::{
    GET_OBJECT_ID, Verdict, all_lock, bytes_change, count_of, file_info_size, ioctl_status,
    is_empty, ranges_of, refuse, status_of, turn_down, turn_down_lock, volume_info_size,
};
use std::alloc::{AllocError, Global};
use store_files::{Entry, Listed};
use store_opens::{Range, RangeError};
use wire_bytes::Text;
use wire_commands::{Body, Element, Message, Named};

impl Tables {
    pub(crate) fn check_flush(&self, id: u64) -> Verdict
        ensures { (c : Command) (s : Server) → TablesShown self.now s → s.standing id ≡ true → verdict_of c result
            ≡ flush_check s id }
    {
        if self.has_either(id, 0x2, 0x4) {
            return told(id, Body::Empty);
        }
        turn_down(id, ACCESS_DENIED)
    }

    // Whether the access of an open has one of two bits.
    fn has_either(&self, id: u64, one: u32, other: u32) -> bool
        requires { (0 < one) × (0 < other) }
        ensures { (s : Server) → TablesShown self.now s → s.standing id ≡ true
            → result ≡ (has_access s id one || has_access s id other) }
    {
        self.has_access(id, one) || self.has_access(id, other)
    }

    pub(crate) fn check_close(&self, id: u64, query: bool) -> Verdict
        ensures { (c : Command) (s : Server) → Fits s → TablesShown self.now s → s.standing id ≡ true
            → verdict_of c result ≡ close_check s id query }
    {
        if query {
            let info = self.info(self.file_of(id));
            return Verdict::CloseOpen {
                id,
                body: Body::Closed { info },
            };
        }
        Verdict::CloseOpen {
            id,
            body: Body::Empty,
        }
    }

    // ---- READ

    pub(crate) fn check_read(
        &self,
        id: u64,
        at: u64,
        size: u32,
        minimum: u32,
    ) -> Result<Verdict, AllocError>
        ensures { (c : Command) (s : Server) → Fits s → TablesShown self.now s → s.standing id ≡ true
            → IfOk result (λ v. verdict_of c v ≡ read_check s id at size minimum) }
    {
        if !self.has_either(id, 0x1, 0x20) {
            return Ok(turn_down(id, ACCESS_DENIED));
        }
        let file = self.file_of(id);
        if self.is_directory(file) {
            return Ok(turn_down(id, INVALID_DEVICE_REQUEST));
        }
        match self.opens.may_read(id, at, u64::from(size)) {
            Ok(()) => self.check_bytes(id, file, at, size, minimum),
            Err(_) => Ok(turn_down(id, FILE_LOCK_CONFLICT)),
        }
    }

    // What is read of a file's bytes.
    fn check_bytes(
        &self,
        id: u64,
        file: u64,
        at: u64,
        size: u32,
        minimum: u32,
    ) -> Result<Verdict, AllocError>
        ensures { (c : Command) (s : Server) → TablesShown self.now s → exists s file ≡ true
            → IfOk result (λ v. verdict_of c v ≡ read_bytes s id file at size minimum) }
    {
        let length = self.length(file);
        if size != 0 && at >= length {
            return Ok(turn_down(id, END_OF_FILE));
        }
        if u64::from(size).min(length.saturating_sub(at)) < u64::from(minimum) {
            return Ok(turn_down(id, END_OF_FILE));
        }
        match self.tree.read(file, at, size) {
            Ok(bytes) => Ok(told(id, Body::Content { bytes })),
            Err(_) => Err(AllocError),
        }
    }

    // ---- WRITE

    pub(crate) fn check_write(
        &self,
        m: &Message<'_>,
        id: u64,
        at: u64,
        bytes: &[u8],
    ) -> Result<Verdict, AllocError>
        ensures { (s : Server) → Fits s → TablesShown self.now s → s.standing id ≡ true
            → bytes_in (command_of m.now.command) ≡ bytes.now → IsListingShort at bytes.now
            → IfOk result (λ v. verdict_of (command_of m.now.command) v
            ≡ write_check s (message_of m.now) id at bytes.now) }
    {
        // A newer sequence has reached the open, and an older write must not act after what came with that.
        if self.opens.is_stale(id, m.channel_sequence) {
            return Ok(refuse(FILE_NOT_AVAILABLE));
        }
        self.check_timely_write(m, id, at, bytes)
    }

    fn check_timely_write(
        &self,
        m: &Message<'_>,
        id: u64,
        at: u64,
        bytes: &[u8],
    ) -> Result<Verdict, AllocError>
        ensures { (s : Server) → Fits s → TablesShown self.now s → s.standing id ≡ true
            → bytes_in (command_of m.now.command) ≡ bytes.now → IsListingShort at bytes.now
            → IfOk result (λ v. verdict_of (command_of m.now.command) v
            ≡ timely_write s (message_of m.now) id at bytes.now) }
    {
        if !self.has_access(id, 0x2) {
            return Ok(turn_down(id, ACCESS_DENIED));
        }
        let file = self.file_of(id);
        if self.is_directory(file) {
            return Ok(turn_down(id, INVALID_DEVICE_REQUEST));
        }
        // After the access, so that an open without it learns nothing. Before ranges, room and journal, so that a
        // write that acted isn't refused at its second copy for what has changed since.
        if self.is_written(m, file, at, bytes)? {
            return Ok(told(id, count_of(bytes)));
        }
        Ok(self.check_new_bytes(id, file, at, bytes))
    }

    // A replayed write of bytes that stand there.
    fn is_written(
        &self,
        m: &Message<'_>,
        file: u64,
        at: u64,
        bytes: &[u8],
    ) -> Result<bool, AllocError>
        ensures { (s : Server) (o : ℕ) → TablesShown self.now s → file ≡ file_of s o → exists s file ≡ true
            → IfOk result (λ b. b ≡ is_repeated s (message_of m.now) o (bytes_change at bytes.now)) }
    {
        if !m.replay {
            return Ok(false);
        }
        if is_empty(bytes) {
            return Ok(true);
        }
        self.tree.holds(file, at, bytes)
    }

    // A write that isn't repeated meets ranges and the room.
    fn check_new_bytes(&self, id: u64, file: u64, at: u64, bytes: &[u8]) -> Verdict
        ensures { (c : Command) (s : Server) → TablesShown self.now s → s.standing id ≡ true → file ≡ file_of s id → exists s file ≡ true
            → bytes_in c ≡ bytes.now → IsListingShort at bytes.now → verdict_of c result ≡ new_bytes s id at bytes.now }
    {
        match self.opens.may_write(id, at, bytes.len() as u64) {
            Ok(()) => self.check_room(id, file, at, bytes),
            Err(_) => turn_down(id, FILE_LOCK_CONFLICT),
        }
    }

    // The room.
    fn check_room(&self, id: u64, file: u64, at: u64, bytes: &[u8]) -> Verdict
        ensures { (c : Command) (s : Server) → TablesShown self.now s → file ≡ file_of s id → exists s file ≡ true
            → bytes_in c ≡ bytes.now → IsListingShort at bytes.now → verdict_of c result ≡ bytes_or_full s id at bytes.now }
    {
        if !is_empty(bytes) && self.tree.passes_room(file, end_of(at, bytes)) {
            return turn_down(id, DISK_FULL);
        }
        Verdict::Alter {
            id,
            change: bytes_change(at, bytes),
            body: count_of(bytes),
        }
    }

    // ---- LOCK

    // What a slot keeps is answered before the sequence is looked at.
    pub(crate) fn check_lock(
        &self,
        id: u64,
        index: u32,
        number: u8,
        elements: &[Element],
    ) -> Result<Verdict, AllocError>
        ensures { (c : Command) (s : Server) → Fits s → TablesShown self.now s → s.standing id ≡ true
            → is_filled elements.now ≡ true → elements_in c ≡ elements.now → IfOk result (λ v. verdict_of c v
            ≡ lock_check s id index number elements.now) }
    {
        // A LOCK that comes again hears its first answer, and doesn't act twice.
        match self.kept_lock(id, index, number) {
            Some(status) => {
                if status == SUCCESS {
                    return Ok(Verdict::Give { body: Body::Empty });
                }
                Ok(refuse(status))
            }
            None => self.check_new_lock(id, index, number, elements),
        }
    }

    // The status that the slot of a LOCK keeps, where its index names one.
    fn kept_lock(&self, id: u64, index: u32, number: u8) -> Option<u32>
        ensures { (s : Server) → TablesShown self.now s → s.standing id ≡ true → result
            ≡ kept_lock s id index number }
    {
        if index == 0 {
            return None;
        }
        if index > 64 {
            return None;
        }
        self.opens.look(id, index as u8, number)
    }

    fn check_new_lock(
        &self,
        id: u64,
        index: u32,
        number: u8,
        elements: &[Element],
    ) -> Result<Verdict, AllocError>
        ensures { (c : Command) (s : Server) → Fits s → TablesShown self.now s → s.standing id ≡ true
            → is_filled elements.now ≡ true → elements_in c ≡ elements.now → IfOk result (λ v. verdict_of c v
            ≡ new_lock_check s id index number elements.now) }
    {
        if self.is_directory(self.file_of(id)) {
            return Ok(turn_down_lock(id, index, number, INVALID_DEVICE_REQUEST));
        }
        self.check_ranges(id, index, number, elements)
    }

    // What a LOCK comes to by what it leaves of the ranges of its file.
    fn check_ranges(
        &self,
        id: u64,
        index: u32,
        number: u8,
        elements: &[Element],
    ) -> Result<Verdict, AllocError>
        ensures { (c : Command) (s : Server) → TablesShown self.now s → s.standing id ≡ true
            → is_filled elements.now ≡ true → elements_in c ≡ elements.now
            → IfOk result (λ v. verdict_of c v
            ≡ range_check id index number elements.now (change_ranges (s.ranges (file_of s id)) id elements.now)) }
    {
        match self.changed_ranges(id, elements) {
            Ok(ranges) => Ok(Verdict::PutRanges {
                id,
                index,
                number,
                ranges,
            }),
            Err(error) => denied(id, index, number, &error),
        }
    }

    // What a LOCK leaves of the ranges of its file.
    fn changed_ranges(&self, id: u64, elements: &[Element]) -> Result<Vec<Range>, RangeError>
        ensures { (s : Server) → TablesShown self.now s → s.standing id ≡ true → is_filled elements.now ≡ true
            → MatchResult result (λ v. change_ranges (s.ranges (file_of s id)) id elements.now ≡ Stands (map range_of v.items))
            (λ e. DeniedBy e (change_ranges (s.ranges (file_of s id)) id elements.now)) }
    {
        match ranges_of(self.alloc, id, elements) {
            Ok(wanted) => self.ranges_behind(id, elements, &wanted),
            Err(_) => Err(RangeError::Memory),
        }
    }

    // The same by the ranges that its elements name.
    fn ranges_behind(
        &self,
        id: u64,
        elements: &[Element],
        wanted: &[Range],
    ) -> Result<Vec<Range>, RangeError>
        ensures { (s : Server) → TablesShown self.now s → s.standing id ≡ true → is_filled wanted.now ≡ true → AllOf id wanted.now
            → map range_of wanted.now ≡ ranges_of id elements.now
            → MatchResult result (λ v. change_ranges (s.ranges (file_of s id)) id elements.now ≡ Stands (map range_of v.items))
            (λ e. DeniedBy e (change_ranges (s.ranges (file_of s id)) id elements.now)) }
    {
        if all_lock(elements) {
            return self.opens.after_lock(id, wanted);
        }
        self.opens.after_unlock(id, wanted)
    }

    // ---- IOCTL

    pub(crate) fn check_ioctl(&self, m: &Message<'_>, id: u64, code: u32, room: u32) -> Verdict
        ensures { (c : Command) (s : Server) → TablesShown self.now s → s.standing id ≡ true
            → verdict_of c result ≡ ioctl_check s (message_of m.now) id code room }
    {
        if self.opens.is_stale(id, m.channel_sequence) {
            return refuse(FILE_NOT_AVAILABLE);
        }
        let status = ioctl_status(code, room);
        if status == SUCCESS {
            return told(id, self.ioctl_body(id, code));
        }
        turn_down(id, status)
    }

    // An IOCTL that names no open.
    pub(crate) fn check_free_ioctl(&self, code: u32, room: u32) -> Verdict
        ensures { (c : Command) (s : Server) → TablesShown self.now s → verdict_of c result
            ≡ free_ioctl_check s code room }
    {
        if code == GET_OBJECT_ID {
            return refuse(FILE_CLOSED);
        }
        let status = ioctl_status(code, room);
        if status == SUCCESS {
            return Verdict::Give {
                body: self.interfaces(),
            };
        }
        refuse(status)
    }

    // What an IOCTL tells of an open.
    fn ioctl_body(&self, id: u64, code: u32) -> Body
        ensures { (s : Server) → TablesShown self.now s → s.standing id ≡ true → body_of result ≡ ioctl_body s id code }
    {
        if code == GET_OBJECT_ID {
            return Body::ObjectId {
                file: self.file_of(id),
            };
        }
        self.interfaces()
    }

    fn interfaces(&self) -> Body
        ensures { (s : Server) → TablesShown self.now s → body_of result ≡ Interfaces s.address }
    {
        Body::Interfaces {
            address: self.config.address,
        }
    }

    // ---- QUERY_INFO

    pub(crate) fn check_file_query(
        &self,
        id: u64,
        class: u8,
        room: u32,
    ) -> Result<Verdict, AllocError>
        ensures { (c : Command) (s : Server) → Fits s → TablesShown self.now s → s.standing id ≡ true
            → IfOk result (λ v. verdict_of c v ≡ file_query_check s id class room) }
    {
        if needs_attributes(class) && !self.has_access(id, 0x80) {
            return Ok(turn_down(id, ACCESS_DENIED));
        }
        // No file has a short name.
        if class == 21 {
            return Ok(turn_down(id, OBJECT_NAME_NOT_FOUND));
        }
        let file = self.file_of(id);
        let size = file_info_size(class, self.is_directory(file), self.tree.path(file));
        if u128::from(room) < size {
            return Ok(turn_down(id, INFO_LENGTH_MISMATCH));
        }
        let body = self.file_told(id, file, class)?;
        Ok(told(id, body))
    }

    fn file_told(&self, id: u64, file: u64, class: u8) -> Result<Body, AllocError>
        ensures { (s : Server) → TablesShown self.now s → s.standing id ≡ true → exists s file ≡ true
            → IfOk result (λ b. body_of b
            ≡ FileInfo class (path_of s file) (info_of s file) (s.opened id).access (s.opened id).options
            (s.current_byte_offset id)) }
    {
        let path = Text::from_str(self.alloc, self.tree.path(file))?;
        let info = self.info(file);
        match self.opens.row(id) {
            Some(row) => Ok(Body::FileInfo {
                class,
                path,
                info,
                access: row.access,
                options: row.options,
                position: row.position,
            }),
            None => Ok(Body::Empty),
        }
    }

    pub(crate) fn check_volume_query(&self, id: u64, class: u8, room: u32) -> Verdict
        ensures { (c : Command) (s : Server) → TablesShown self.now s → verdict_of c result
            ≡ volume_query_check s id class room }
    {
        if room < volume_info_size(class) {
            return turn_down(id, INFO_LENGTH_MISMATCH);
        }
        let space = self.tree.space();
        let body = Body::VolumeInfo {
            class,
            room: space.room,
            used: space.used,
        };
        told(id, body)
    }

    // ---- QUERY_DIRECTORY

    // A listing goes on behind the last name, or begins anew.
    pub(crate) fn check_list(
        &self,
        id: u64,
        class: u8,
        restart: bool,
        single: bool,
        pattern: &str,
        room: u32,
    ) -> Result<Verdict, AllocError>
        ensures { (c : Command) (s : Server) → Fits s → TablesShown self.now s → s.standing id ≡ true
            → IfOk result (λ v. verdict_of c v ≡ list_check s id class restart single pattern.now room) }
    {
        if !self.has_access(id, 0x1) {
            return Ok(turn_down(id, ACCESS_DENIED));
        }
        let file = self.file_of(id);
        if !self.is_directory(file) {
            return Ok(turn_down(id, INVALID_PARAMETER));
        }
        self.check_listed(id, file, class, restart, single, pattern, room)
    }

    // The listing of a directory.
    fn check_listed(
        &self,
        id: u64,
        file: u64,
        class: u8,
        restart: bool,
        single: bool,
        pattern: &str,
        room: u32,
    ) -> Result<Verdict, AllocError>
        ensures { (c : Command) (s : Server) → TablesShown self.now s → s.standing id ≡ true → exists s file ≡ true
            → file ≡ file_of s id → IfOk result (λ v. verdict_of c v
            ≡ list_from s id class single pattern.now room (begins_at restart (s.enumeration_location id))) }
    {
        let behind = self.behind(id, restart);
        let listed = self
            .tree
            .list_from(file, pattern, behind, class, room, single)?;
        listing_of(self.alloc, id, class, behind.is_some(), listed)
    }

    // The last name that the listing of an open gave, where it doesn't begin anew.
    fn behind(&self, id: u64, restart: bool) -> Option<&str>
        ensures { (s : Server) → TablesShown self.now s → s.standing id ≡ true
            → option_map (λ t. t.now) result ≡ begins_at restart (s.enumeration_location id) }
    {
        if restart {
            return None;
        }
        match self.opens.row(id) {
            Some(row) => match &row.location {
                Some(text) => Some(text.as_str()),
                None => None,
            },
            None => None,
        }
    }
}

fn told(id: u64, body: Body) -> Verdict
    ensures { (c : Command) → verdict_of c result ≡ Tell id (body_of body) }
{
    Verdict::Tell { id, body }
}

// Where a write ends.
fn end_of(at: u64, bytes: &[u8]) -> u64
    ensures { at + length bytes.now < 0x8000_0000_0000_0000 → result ≡ at + length bytes.now }
{
    at.saturating_add(bytes.len() as u64)
}

// The classes of information that ask for the access to attributes.
fn needs_attributes(class: u8) -> bool
    ensures { result ≡ needs_attributes class }
{
    class == 4 || (class == 18 || class == 34)
}

// What a refused LOCK comes to; it fails where memory ran out.
fn denied(id: u64, index: u32, number: u8, error: &RangeError) -> Result<Verdict, AllocError>
    ensures { (c : Command) (a : RangeAnswer) → DeniedBy error.now a
        → IfOk result (λ v. verdict_of c v ≡ range_check id index number (elements_in c) a) }
{
    match status_of(error) {
        Some(status) => Ok(turn_down_lock(id, index, number, status)),
        None => Err(AllocError),
    }
}

// What a listing comes to: none is wanted, none fits, or the entries that do.
fn listing_of(
    alloc: Global,
    id: u64,
    class: u8,
    goes_on: bool,
    listed: Listed,
) -> Result<Verdict, AllocError>
    ensures { (c : Command) (last : Option (List ℕ)) (all : List says.Named) → goes_on ≡ is_some last → listed.any ≡ is_filled all
        → IfOk result (λ v. verdict_of c v ≡ listing_of id class last all (map model_named listed.entries.items)) }
{
    if listed.any {
        return show(alloc, id, class, listed.entries);
    }
    Ok(turn_down(id, none_wanted(goes_on)))
}

// Some are wanted: the entries that fit.
fn show(alloc: Global, id: u64, class: u8, entries: Vec<Entry>) -> Result<Verdict, AllocError>
    ensures { (c : Command) (last : Option (List ℕ)) (all : List says.Named) → is_filled all ≡ true
        → IfOk result (λ v. verdict_of c v ≡ listing_of id class last all (map model_named entries.items)) }
{
    let end = last_name(&entries)?;
    match end {
        Some(last) => {
            let named = all_named(alloc, entries)?;
            Ok(shown(id, class, last, named))
        }
        None => Ok(turn_down(id, INFO_LENGTH_MISMATCH)),
    }
}

fn shown(id: u64, class: u8, last: Text, entries: Vec<Named>) -> Verdict
    ensures { (c : Command) → verdict_of c result ≡ Show id (Behind (Some last)) (Listing class (map named_of entries.items)) }
{
    Verdict::Show {
        id,
        last: Some(last),
        body: Body::Listing { class, entries },
    }
}

// The name of the last entry.
fn last_name(entries: &[Entry]) -> Result<Option<Text>, AllocError>
    ensures { (last : Option (List ℕ)) → IfOk result (λ n. IsListingLast n last (map model_named entries.now)) }
{
    match entries.last() {
        Some(end) => {
            let name = end.name.copy()?;
            Ok(Some(name))
        }
        None => Ok(None),
    }
}

fn none_wanted(goes_on: bool) -> u32
    ensures { (last : Option (List ℕ)) → goes_on ≡ is_some last → result ≡ none_wanted last }
{
    if goes_on {
        return NO_MORE_FILES;
    }
    NO_SUCH_FILE
}

fn all_named(alloc: Global, entries: Vec<Entry>) -> Result<Vec<Named>, AllocError>
    ensures { IfOk result (λ v. map named_of v.items ≡ map model_named entries.items) }
{
    entries.into_iter().map(|one| named_of(one)).collect(alloc)
}

fn named_of(entry: Entry) -> Named
    ensures { named_of result ≡ model_named entry }
{
    Named {
        info: info_of(&entry.info),
        name: entry.name,
    }
}
