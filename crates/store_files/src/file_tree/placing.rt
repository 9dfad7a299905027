//! Files that a snapshot tells, put back at their numbers.
ghost use Rattle.std.specs.Prelude.{◌≡◌, ◌+◌, ◌<◌, ◌≤◌, ◌^◌, nat_le, ℕ, List, true, if◌then◌else◌, length};
ghost use Rattle.std.specs.Prelude.{OnOk, OnErr, IfOk, MatchResult};
ghost use Rattle.std.specs.HashMap.{spare};
ghost use Rattle.spec_exchange.specs.State.{Server};
ghost use Rattle.spec_exchange.specs.Files.{exists_in};
ghost use Rattle.store_files.specs.file_extents.Kept.{IsContent};
ghost use Rattle.store_files.specs.file_tree.Shown.{ShowsFiles};
ghost use Rattle.store_files.specs.file_tree.Made.{IsFileNewRow};
ghost use Rattle.store_files.specs.file_tree.Bytes.{CanWrite};
ghost use Rattle.store_files.specs.file_tree.Placed.{is_placeable, has_free_number, has_free_path, may_be_placed, PlacedIf};
ghost use Rattle.store_files.specs.file_tree.Placed.{IsPlacedRow, IsPathTaken, may_have_bytes, with_bytes};
ghost use Rattle.store_files.specs.declared.file_tree.placing.PlacedFile.{PlacedFile};

use crate::file_tree::bytes::{NewBytes, prepare_row};
use crate::file_tree::index::name_path;
use crate::file_tree::list::leaf_of;
use crate::file_tree::make::{make_room, new_row, put_row};
use crate::file_tree::row::Row;
use crate::file_tree::tree::Tree;
use crate::names::{begins_with_backslash, is_component, key_of};
use spec_exchange::values::Basic;
use std::alloc::{AllocError, Global};

/// A file or directory that a snapshot tells, but for its path: `size` bytes, all of them zeros.
#[derive(Clone, Copy)]
pub struct PlacedFile {
    pub file: u64,
    pub directory: bool,
    /// Delete pending.
    pub pending: bool,
    pub basic: Basic,
    pub size: u64,
}

// A path that a file may have.
fn is_placeable(path: &str) -> bool
    ensures { result ≡ is_placeable path.now }
{
    if begins_with_backslash(path.as_bytes()) {
        return false;
    }
    is_component(leaf_of(path).as_bytes())
}

fn placed_row(alloc: Global, path: &str, placed: &PlacedFile) -> Result<Row, AllocError>
    ensures { IfOk result (λ r. IsPlacedRow r path.now placed.now) }
{
    match new_row(alloc, path, placed.directory, 0, 0) {
        Ok(row) => return Ok(filled(row, placed)),
        Err(_) => return Err(AllocError),
    }
}

// A row with these marks, times and zeros.
fn filled(mut row: Row, placed: &PlacedFile) -> Row
    ensures { (path : List ℕ) → IsFileNewRow row path placed.now.directory 0 0 → IsPlacedRow result path placed.now }
{
    row.delete_pending = placed.pending;
    row.basic = placed.basic;
    row.bytes.set_end(placed.size);
    row
}

impl Tree {
    /// The number that the next file gets, where it is no lower than it was.
    pub fn set_next(&mut self, next: u64)
        ensures shown { (s : Server) → ShowsFiles self.old s → s.next_file ≤ next → ShowsFiles self.new (record s { next_file = next }) }
        ensures held { self.new.held ≡ self.old.held }
    {
        self.next = next;
    }

    /// Puts back a file or directory at its number, with so many zeros. It answers false, and the files are as before, where
    /// the number was never given or is a file's, where the path is none or has something at it or no directory for it, or
    /// where all lengths would come to 2^64 or more. Where memory runs out the files are as before too.
    pub fn place(&mut self, path: &str, placed: &PlacedFile) -> Result<bool, AllocError>
        ensures shown { MatchResult result
            (λ b. (s : Server) → ShowsFiles self.old s → (b ≡ may_be_placed s placed.now.file path.now placed.now.size)
            × PlacedIf b self.new s path.now placed.now)
            (λ _. (s : Server) → ShowsFiles self.old s → ShowsFiles self.new s) }
        ensures held { self.new.held ≡ self.old.held }
    {
        if !self.may_be_placed(path, placed) {
            return Ok(false);
        }
        match self.take_place(path, placed) {
            Ok(row) => {
                self.put_placed(row, placed);
                return Ok(true);
            }
            Err(_) => return Err(AllocError),
        }
    }

    fn may_be_placed(&self, path: &str, placed: &PlacedFile) -> bool
        ensures rule { (s : Server) → ShowsFiles self.now s → result ≡ may_be_placed s placed.now.file path.now placed.now.size }
    {
        if !self.has_free_number(placed.file) {
            return false;
        }
        if !self.has_free_path(path) {
            return false;
        }
        placed.size <= u64::MAX - self.used()
    }

    // The number was given, and no file has it. The root has 0.
    fn has_free_number(&self, file: u64) -> bool
        ensures { (s : Server) → ShowsFiles self.now s → result ≡ has_free_number s file }
    {
        if file == 0 {
            return false;
        }
        if file >= self.next_file() {
            return false;
        }
        !self.exists(file)
    }

    // Nothing stands at the path, and its directory is there.
    fn has_free_path(&self, path: &str) -> bool
        ensures { (s : Server) → ShowsFiles self.now s → result ≡ has_free_path s path.now }
    {
        if !is_placeable(path) {
            return false;
        }
        if self.find(path).is_some() {
            return false;
        }
        self.has_parent(path)
    }

    // Takes the memory for a file that may be put back.
    fn take_place(&mut self, path: &str, placed: &PlacedFile) -> Result<Row, AllocError>
        ensures row { IfOk result (λ r. IsPlacedRow r path.now placed.now) }
        ensures named { OnOk result ((s : Server) → ShowsFiles self.old s → IsPathTaken self.new s path.now placed.now.file) }
        ensures room { OnOk result (0 < spare self.new.rows) }
        ensures err { OnErr result ((s : Server) → ShowsFiles self.old s → ShowsFiles self.new s) }
        ensures held { self.new.held ≡ self.old.held }
    {
        let row = placed_row(self.alloc, path, placed)?;
        let key = key_of(self.alloc, path)?;
        make_room(&mut self.rows)?;
        // Last, since an ordered map has no reserve.
        name_path(&mut self.paths, key, placed.file)?;
        Ok(row)
    }

    // Its row stands at its number.
    fn put_placed(&mut self, row: Row, placed: &PlacedFile)
        requires { 0 < spare self.old.rows }
        ensures shown { (s : Server) (path : List ℕ) → IsPathTaken self.old s path placed.now.file → IsPlacedRow row path placed.now
            → may_be_placed s placed.now.file path placed.now.size ≡ true → PlacedIf true self.new s path placed.now }
        ensures held { self.new.held ≡ self.old.held }
    {
        self.used = self.used.saturating_add(placed.size);
        put_row(&mut self.rows, placed.file, row);
    }
}

impl Tree {
    /// Puts back bytes over those of a file or directory, whose times stay. It answers false, and the files are as before,
    /// where none are given, where it isn't there, or where they would pass its end. Where memory runs out the files are as
    /// before too.
    pub fn restore_bytes(&mut self, file: u64, at: u64, bytes: &[u8]) -> Result<bool, AllocError>
        ensures shown { MatchResult result
            (λ b. (s : Server) → ShowsFiles self.old s → (b ≡ may_have_bytes s file at bytes.now)
            × ShowsFiles self.new (if b then with_bytes s file at bytes.now else s))
            (λ _. (s : Server) → ShowsFiles self.old s → ShowsFiles self.new s) }
        ensures held { self.new.held ≤ self.old.held + length bytes.now }
    {
        if !self.may_have_bytes(file, at, bytes) {
            return Ok(false);
        }
        match self.prepare_bytes(file, at, bytes) {
            Ok(new) => {
                self.put_bytes(new, bytes);
                return Ok(true);
            }
            Err(_) => return Err(AllocError),
        }
    }

    // There are some, and they don't pass the end of a file that is there.
    fn may_have_bytes(&self, file: u64, at: u64, bytes: &[u8]) -> bool
        ensures number { result ≡ true → (0 < length bytes.now) × (at + length bytes.now < 2 ^ 64) }
        ensures rule { (s : Server) → ShowsFiles self.now s → result ≡ may_have_bytes s file at bytes.now }
    {
        if bytes.is_empty() {
            return false;
        }
        match self.rows.get(&file) {
            Some(row) => return ends_in(row, at, bytes),
            None => return false,
        }
    }

    // Takes the memory for bytes that are put back.
    fn prepare_bytes(&mut self, file: u64, at: u64, bytes: &[u8]) -> Result<NewBytes, AllocError>
        requires { (0 < length bytes.now) × (at + length bytes.now < 2 ^ 64) }
        ensures same { (s : Server) → ShowsFiles self.old s → ShowsFiles self.new s }
        ensures held { self.new.held ≡ self.old.held }
        ensures ready { IfOk result (λ n. (s : Server) → ShowsFiles self.old s → exists_in s.entries file ≡ true
            → CanWrite self.new n file at bytes.now) }
    {
        let end = at + bytes.len() as u64;
        match prepare_row(&mut self.rows, file, at, bytes) {
            Ok(prepared) => {
                return Ok(NewBytes {
                    file,
                    end,
                    prepared,
                });
            }
            Err(_) => return Err(AllocError),
        }
    }
}

// They end within the row's bytes.
fn ends_in(row: &Row, at: u64, bytes: &[u8]) -> bool
    ensures number { result ≡ true → at + length bytes.now < 2 ^ 64 }
    ensures rule { (c : List ℕ) → IsContent row.now.bytes c → result ≡ nat_le (at + length bytes.now) (length c) }
{
    at as u128 + bytes.len() as u128 <= row.bytes.len() as u128
}
