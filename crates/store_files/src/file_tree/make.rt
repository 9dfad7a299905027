ghost use Rattle.std.specs.Prelude.{nat_le, nat_lt, ◌≤◌, ◌||◌, length, false};
ghost use Rattle.std.specs.Prelude.{◌≡◌, ◌+◌, ◌<◌, ◌^◌, ◌==◌, ℕ, List, Bool, true, None, Some, map, OnOk, OnErr, IfOk};
ghost use Rattle.std.specs.Prelude.{IfNone, MatchResult, if◌then◌else◌, nat_eq};
ghost use Rattle.std.specs.HashMap.{get, hash_map_len, spare};
ghost use Rattle.std.specs.BTreeMap.{get_by_text};
ghost use Rattle.std.specs.Str.{bytes_eq};
ghost use Rattle.std.specs.String.{string_bytes};
ghost use Rattle.spec_exchange.specs.State.{Server};
ghost use Rattle.spec_exchange.specs.Files.{exists, exists_in, is_full_directory, make_file, remove_file};
ghost use Rattle.store_files.specs.file_tree.Shown.{ShowsFiles, FileShowsRows, below_key};
ghost use Rattle.store_files.specs.file_tree.Refusals.{make_refusal, place_refusal, remove_refusal, StoreTells, StoreRefuses};
ghost use Rattle.store_files.specs.file_tree.Made.{IsFileNewRow, IsFileReady, Prepared};
ghost use Rattle.store_files.specs.declared.file_tree.row.Row.{Row};

use crate::file_extents::Extents;
use crate::file_tree::error::StoreError;
use crate::file_tree::index::{below_for, forget_path, name_path};
use crate::file_tree::row::{Row, times_at};
use crate::file_tree::tree::Tree;
use crate::names::{key_of, path_form};
use std::alloc::{AllocError, Global};
use std::collections::HashMap;
use wire_bytes::Text;

// The limits of files and directories, and of their numbers.
const MAX_FILES: usize = 65_536;

const LAST_FILE: u64 = 0xffff_ffff_ffff_fffe;

// Statuses (MS-ERREF 2.3.1).
pub const ACCESS_DENIED: u32 = 0xc000_0022;

pub const OBJECT_NAME_COLLISION: u32 = 0xc000_0035;

pub const OBJECT_PATH_NOT_FOUND: u32 = 0xc000_003a;

const INSUFFICIENT_RESOURCES: u32 = 0xc000_009a;

const DIRECTORY_NOT_EMPTY: u32 = 0xc000_0101;

/// A file for which there is memory, and whose path is taken.
#[derive(Drop)]
pub struct NewFile {
    pub(crate) row: Row,
}

// The row of a new file or directory, without bytes.
pub fn new_row(
    alloc: Global,
    path: &str,
    directory: bool,
    attributes: u32,
    now: u64,
) -> Result<Row, AllocError>
    ensures { IfOk result (λ r. IsFileNewRow r path.now directory attributes now) }
{
    let key = key_of(alloc, path)?;
    let below = below_for(alloc, path, directory)?;
    let path = Text::from_str(alloc, path)?;
    Ok(Row {
        path,
        key,
        below,
        directory,
        delete_pending: false,
        basic: times_at(now, attributes),
        bytes: Extents::new(alloc),
    })
}

// There is room for one row more.
pub(crate) fn make_room(rows: &mut HashMap<u64, Row>) -> Result<(), AllocError>
    ensures rows { (q : ℕ) → get nat_eq rows.new q ≡ get nat_eq rows.old q }
    ensures count { hash_map_len rows.new ≡ hash_map_len rows.old }
    ensures room { OnOk result (0 < spare rows.new) }
{
    rows.reserve(1)
}

// The row stands at a new number.
pub(crate) fn put_row(rows: &mut HashMap<u64, Row>, file: u64, row: Row)
    requires { 0 < spare rows.old }
    ensures at { (q : ℕ) → get nat_eq rows.new q ≡ (if q == file then Some row else get nat_eq rows.old q) }
    ensures count { get nat_eq rows.old file ≡ None → hash_map_len rows.new ≡ hash_map_len rows.old + 1 }
{
    let _ = rows.insert(file, row);
}

impl Tree {
    /// Makes a file or directory of the next number, which it answers. Its times are `now`. It is refused, in this order,
    /// for a path of a bad form (INVALID_PARAMETER for a leading `\`, else OBJECT_NAME_INVALID), a path that is there
    /// (OBJECT_NAME_COLLISION), the 65,537th file or directory or a number past 2^64 - 2 (INSUFFICIENT_RESOURCES), and a
    /// path whose directory isn't there (OBJECT_PATH_NOT_FOUND): MS-SMB2 3.3.5.9.
    pub fn make(
        &mut self,
        path: &str,
        directory: bool,
        attributes: u32,
        now: u64,
    ) -> Result<u64, StoreError>
        ensures done { MatchResult result (λ f. (s : Server) → ShowsFiles self.old s → (make_refusal s path.now ≡ None) × (f ≡ s.next_file)
            × ShowsFiles self.new (make_file s path.now directory attributes now))
            (λ e. (s : Server) → ShowsFiles self.old s → StoreTells e (make_refusal s path.now) × ShowsFiles self.new s) }
        ensures held { self.new.held ≡ self.old.held }
    {
        match self.prepare_make(path, directory, attributes, now) {
            Ok(new) => return Ok(self.finish_make(new)),
            Err(error) => return Err(error),
        }
    }

    /// Takes the memory for a file, which `finish_make` then makes, or `cancel_make` gives up. One of the two must
    /// come next.
    pub fn prepare_make(
        &mut self,
        path: &str,
        directory: bool,
        attributes: u32,
        now: u64,
    ) -> Result<NewFile, StoreError>
        ensures ready { OnOk result (IsFileReady self.new) }
        ensures prepared { MatchResult result (λ n. (s : Server) → ShowsFiles self.old s → (make_refusal s path.now ≡ None)
            × Prepared self.new n s path.now directory attributes now)
            (λ e. (s : Server) → ShowsFiles self.old s → StoreTells e (make_refusal s path.now) × ShowsFiles self.new s) }
        ensures held { self.new.held ≡ self.old.held }
    {
        match self.make_refusal(path) {
            Some(status) => return Err(StoreError::Status(status)),
            None => match self.take_path(path, directory, attributes, now) {
                Ok(new) => return Ok(new),
                Err(_) => return Err(StoreError::Memory),
            },
        }
    }

    // Takes the memory for a file that nothing forbids.
    fn take_path(
        &mut self,
        path: &str,
        directory: bool,
        attributes: u32,
        now: u64,
    ) -> Result<NewFile, AllocError>
        ensures ok { IfOk result (λ n. (s : Server) → ShowsFiles self.old s → make_refusal s path.now ≡ None
            → Prepared self.new n s path.now directory attributes now) }
        ensures room { OnOk result (0 < spare self.new.rows) }
        ensures next { self.new.next ≡ self.old.next }
        ensures err { OnErr result ((s : Server) → ShowsFiles self.old s → ShowsFiles self.new s) }
        ensures held { self.new.held ≡ self.old.held }
    {
        let row = new_row(self.alloc, path, directory, attributes, now)?;
        let key = key_of(self.alloc, path)?;
        make_room(&mut self.rows)?;
        // Last, since an ordered map has no reserve: after this insert nothing may fail, or the path would have to be
        // given back.
        name_path(&mut self.paths, key, self.next)?;
        Ok(NewFile { row })
    }

    /// Makes a prepared file, and answers its number. It takes no memory.
    pub fn finish_make(&mut self, prepared: NewFile) -> u64
        requires { IsFileReady self.old }
        ensures shown { (s : Server) (path : List ℕ) (directory : Bool) (attributes now : ℕ)
            → Prepared self.old prepared s path directory attributes now
            → (result ≡ s.next_file) × ShowsFiles self.new (make_file s path directory attributes now) }
        ensures held { self.new.held ≡ self.old.held }
    {
        let file = self.next;
        put_row(&mut self.rows, file, prepared.row);
        self.next += 1;
        file
    }

    /// Gives up a prepared file: the files are as before. It takes no memory.
    pub fn cancel_make(&mut self, prepared: NewFile)
        ensures shown { (s : Server) (path : List ℕ) (directory : Bool) (attributes now : ℕ)
            → Prepared self.old prepared s path directory attributes now
            → ShowsFiles self.new s }
        ensures held { self.new.held ≡ self.old.held }
    {
        forget_path(&mut self.paths, prepared.row.key.as_str());
    }

    // The status of the first rule that making this path breaks.
    fn make_refusal(&self, path: &str) -> Option<u32>
        ensures number { IfNone result (self.now.next + 1 < 2 ^ 64) }
        ensures rule { (s : Server) → ShowsFiles self.now s → result ≡ make_refusal s path.now }
    {
        match path_form(path) {
            Some(status) => return Some(status),
            None => return self.place_refusal(path),
        }
    }

    // The status of the first rule on places and counts that making this path breaks.
    fn place_refusal(&self, path: &str) -> Option<u32>
        ensures number { IfNone result (self.now.next + 1 < 2 ^ 64) }
        ensures rule { (s : Server) → ShowsFiles self.now s → result ≡ place_refusal s path.now }
    {
        if self.find(path).is_some() {
            return Some(OBJECT_NAME_COLLISION);
        }
        if self.is_counted_out() {
            return Some(INSUFFICIENT_RESOURCES);
        }
        if self.has_parent(path) {
            return None;
        }
        Some(OBJECT_PATH_NOT_FOUND)
    }

    // A count of files, or of their numbers, stands at its limit.
    fn is_counted_out(&self) -> bool
        ensures number { result ≡ false → self.now.next + 1 < 2 ^ 64 }
        ensures rule { (s : Server) → ShowsFiles self.now s → result
            ≡ (nat_le 65536 (length s.entries) || nat_lt 0xffff_ffff_ffff_fffe s.next_file) }
    {
        self.count() >= MAX_FILES || self.next_file() > LAST_FILE
    }

    /// Takes away a file or an empty directory that is there. It takes no memory.
    pub fn remove(&mut self, file: u64) -> Result<(), StoreError>
        ensures done { MatchResult result
            (λ _. (s : Server) → ShowsFiles self.old s → exists s file ≡ true → (remove_refusal s file ≡ None)
            × ShowsFiles self.new (remove_file s file))
            (λ e. (s : Server) → ShowsFiles self.old s → exists s file ≡ true → StoreRefuses e (remove_refusal s file) × ShowsFiles self.new s) }
        ensures held { self.new.held ≤ self.old.held }
    {
        if file == 0 {
            return Err(StoreError::Status(ACCESS_DENIED));
        }
        if self.is_full(file) {
            return Err(StoreError::Status(DIRECTORY_NOT_EMPTY));
        }
        self.take_away(file);
        Ok(())
    }

    fn take_away(&mut self, file: u64)
        ensures shown { (s : Server) → ShowsFiles self.old s → exists_in s.entries file ≡ true
            → is_full_directory s file ≡ false → ShowsFiles self.new (remove_file s file) }
        ensures held { self.new.held ≤ self.old.held }
    {
        match self.rows.remove(&file) {
            Some(row) => {
                forget_path(&mut self.paths, row.key.as_str());
                self.used = self.used.saturating_sub(row.bytes.len());
                self.held = self.held.saturating_sub(row.bytes.held());
                return;
            }
            None => return,
        }
    }
}
