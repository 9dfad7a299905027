//! Bytes of files by number, and the room that all of them have.
ghost use Rattle.std.specs.Prelude.{◌≡◌, ◌+◌, ◌-◌, ◌<◌, ◌&&◌, nat_lt, ◌≤◌, ◌^◌, ◌==◌, nat_eq, ℕ, List, Bool, true};
ghost use Rattle.std.specs.Prelude.{false, if◌then◌else◌, length, take, drop, Some, None};
ghost use Rattle.std.specs.Prelude.{OnOk, IfOk, IfSome, IfNone, IsSome, IsOk, MatchResult, MatchOption};
ghost use Rattle.std.specs.HashMap.{get, hash_map_len};
ghost use Rattle.spec_exchange.specs.State.{Server};
ghost use Rattle.spec_exchange.specs.Content.{written, ended, same_bytes, past_end, Read};
ghost use Rattle.spec_exchange.specs.Files.{exists, exists_in, is_directory, passes_room, used, touched, set_content, empty_file};
ghost use Rattle.store_files.specs.file_extents.Kept.{IsContent};
ghost use Rattle.store_files.specs.file_extents.Ready.{IsPieceReady};
ghost use Rattle.store_files.specs.file_tree.Shown.{ShowsFiles};
ghost use Rattle.store_files.specs.file_tree.Refusals.{read_refusal, room_refusal, StoreTells, StoreRefuses};
ghost use Rattle.store_files.specs.file_tree.Bytes.{BytesPut, IsReadyRow, CanWrite, with_content, with_room};
ghost use Rattle.store_files.specs.declared.file_tree.row.Row.{Row};

use crate::file_extents::Prepared;
use crate::file_tree::error::StoreError;
use crate::file_tree::row::{Row, emptied, touched};
use crate::file_tree::tree::Tree;
use std::alloc::AllocError;
use std::collections::HashMap;
use wire_bytes::Bytes;

// Statuses (MS-ERREF 2.3.1).
const END_OF_FILE: u32 = 0xc000_0011;

const DISK_FULL: u32 = 0xc000_007f;

/// A write for which there is memory and room: what the file's pieces need, and where the write ends.
#[derive(Drop)]
pub struct NewBytes {
    pub(crate) file: u64,
    pub(crate) end: u64,
    pub(crate) prepared: Prepared,
}

// Takes the memory for a write into a row's bytes, which stay as they are.
pub(crate) fn prepare_row(
    rows: &mut HashMap<u64, Row>,
    file: u64,
    at: u64,
    bytes: &[u8],
) -> Result<Prepared, AllocError>
    requires { (0 < length bytes.now) × (at + length bytes.now < 2 ^ 64) }
    ensures there { BytesPut (get nat_eq rows.old file) (get nat_eq rows.new file) (λ x y. (c : List ℕ) → IsContent x c → IsContent y c) }
    ensures others { (q : ℕ) → (q == file) ≡ false → get nat_eq rows.new q ≡ get nat_eq rows.old q }
    ensures count { hash_map_len rows.new ≡ hash_map_len rows.old }
    ensures ready { IfOk result (λ p. IsReadyRow (get nat_eq rows.old file) (get nat_eq rows.new file) p at bytes.now) }
{
    match rows.get_mut(&file) {
        Some(row) => return row.bytes.prepare(at, bytes),
        None => return Err(AllocError),
    }
}

// Does a prepared write of a row's bytes.
fn finish_row(rows: &mut HashMap<u64, Row>, file: u64, prepared: Prepared, bytes: &[u8])
    ensures there { BytesPut (get nat_eq rows.old file) (get nat_eq rows.new file)
        (λ x y. (at : ℕ) (c : List ℕ) → IsPieceReady x prepared at bytes.now → IsContent x c → IsContent y (written at bytes.now c)) }
    ensures others { (q : ℕ) → (q == file) ≡ false → get nat_eq rows.new q ≡ get nat_eq rows.old q }
    ensures count { hash_map_len rows.new ≡ hash_map_len rows.old }
{
    if let Some(row) = rows.get_mut(&file) {
        row.bytes.finish(prepared, bytes);
    }
}

// Cuts a row's bytes or goes on with zeros.
fn end_row(rows: &mut HashMap<u64, Row>, file: u64, size: u64)
    ensures there { BytesPut (get nat_eq rows.old file) (get nat_eq rows.new file) (λ x y. (c : List ℕ) → IsContent x c
        → IsContent y (ended size c)) }
    ensures others { (q : ℕ) → (q == file) ≡ false → get nat_eq rows.new q ≡ get nat_eq rows.old q }
    ensures count { hash_map_len rows.new ≡ hash_map_len rows.old }
{
    if let Some(row) = rows.get_mut(&file) {
        row.bytes.set_end(size);
    }
}

impl Tree {
    /// The bytes from a place on, as many as there are up to `length`. END_OF_FILE where some are asked for and none are
    /// there (MS-FSA 2.1.5.3).
    pub fn read(&self, file: u64, at: u64, length: u32) -> Result<Bytes, StoreError>
        ensures { MatchResult result
            (λ b. (s : Server) → ShowsFiles self.now s → exists s file ≡ true → (read_refusal s file at length ≡ None)
            × (b ≡ take length (drop at (s.content file))))
            (λ e. (s : Server) → ShowsFiles self.now s → exists s file ≡ true → StoreTells e (read_refusal s file at length)) }
    {
        match self.row(file) {
            Some(row) => return read_row(row, at, length),
            None => return Err(StoreError::Memory),
        }
    }

    /// Whether a write of these bytes would change none.
    pub fn holds(&self, file: u64, at: u64, bytes: &[u8]) -> Result<bool, AllocError>
        ensures { IfOk result (λ b. (s : Server) → ShowsFiles self.now s → exists s file ≡ true
            → b ≡ same_bytes (written at bytes.now (s.content file)) (s.content file)) }
    {
        match self.row(file) {
            Some(row) => return row_holds(row, at, bytes),
            None => return Err(AllocError),
        }
    }

    /// The bytes that all files together may have.
    pub fn room(&self) -> u64
        ensures { (s : Server) → ShowsFiles self.now s → result ≡ s.room }
    {
        self.room
    }

    /// Changes the room and no file.
    pub fn set_room(&mut self, room: u64)
        ensures shown { (s : Server) → ShowsFiles self.old s → ShowsFiles self.new (with_room s room) }
        ensures held { self.new.held ≡ self.old.held }
    {
        self.room = room;
    }

    /// How many bytes the files' pieces have. It is 0 at first, and no call raises it by more bytes than it writes.
    pub fn held(&self) -> u64
        ensures { result ≡ self.now.held }
    {
        self.held
    }

    /// Whether a file that comes to have this many bytes would pass the room: it grows, and the sum of the lengths
    /// would be more than the room.
    pub fn passes_room(&self, file: u64, size: u64) -> bool
        ensures { (s : Server) → ShowsFiles self.now s → exists s file ≡ true → result ≡ passes_room s file size }
    {
        self.is_past_room(file, size as u128)
    }

    #[tactic(auto, unfolding(spec_exchange::specs::Files::passes_room))]
    fn is_past_room(&self, file: u64, size: u128) -> bool
        requires { size < 2 ^ 65 }
        ensures rule { (s : Server) → ShowsFiles self.now s → exists s file ≡ true → result ≡ passes_room s file size }
        ensures small { result ≡ false → size < 2 ^ 64 }
    {
        let length = self.length(file);
        let others = self.used().saturating_sub(length);
        (others as u128 + size > self.room() as u128) & (size > length as u128)
    }

    /// The number of bytes of a file.
    pub fn length(&self, file: u64) -> u64
        ensures { (s : Server) → ShowsFiles self.now s → exists s file ≡ true → result ≡ length (s.content file) }
    {
        self.info(file).length
    }

    /// Puts bytes at a place, with zeros before it where the file ends earlier, and sets the times of a write
    /// (MS-FSA 2.1.5.4). No bytes change nothing. DISK_FULL where the file would pass the room.
    pub fn write(&mut self, file: u64, at: u64, bytes: &[u8], now: u64) -> Result<(), StoreError>
        ensures nothing { length bytes.now ≡ 0 → IsOk result × (self.new ≡ self.old) }
        ensures done { 0 < length bytes.now → MatchResult result
            (λ _. (s : Server) → ShowsFiles self.old s → exists s file ≡ true → is_directory s file ≡ false
            → (room_refusal s file (at + length bytes.now) ≡ None)
            × ShowsFiles self.new (set_content s file (written at bytes.now (s.content file)) now))
            (λ e. (s : Server) → ShowsFiles self.old s → exists s file ≡ true → is_directory s file ≡ false
            → StoreTells e (room_refusal s file (at + length bytes.now)) × ShowsFiles self.new s) }
        ensures held { self.new.held ≤ self.old.held + length bytes.now }
    {
        if bytes.is_empty() {
            return Ok(());
        }
        match self.prepare_write(file, at, bytes) {
            Ok(new) => {
                self.finish_write(new, bytes, now);
                return Ok(());
            }
            Err(error) => return Err(error),
        }
    }

    /// Takes the memory for a write of one byte or more, which `finish_write` then does. The files stay as they are,
    /// and a write that is given up here has changed no byte; the place of its piece may stay named.
    pub fn prepare_write(
        &mut self,
        file: u64,
        at: u64,
        bytes: &[u8],
    ) -> Result<NewBytes, StoreError>
        requires { 0 < length bytes.now }
        ensures same { (s : Server) → ShowsFiles self.old s → ShowsFiles self.new s }
        ensures held { self.new.held ≡ self.old.held }
        ensures ready { MatchResult result
            (λ n. (s : Server) → ShowsFiles self.old s → exists s file ≡ true → is_directory s file ≡ false
            → (room_refusal s file (at + length bytes.now) ≡ None) × CanWrite self.new n file at bytes.now)
            (λ e. (s : Server) → ShowsFiles self.old s → exists s file ≡ true → is_directory s file ≡ false
            → StoreTells e (room_refusal s file (at + length bytes.now))) }
    {
        match self.end_of(file, at, bytes) {
            Some(end) => match prepare_row(&mut self.rows, file, at, bytes) {
                Ok(prepared) => {
                    return Ok(NewBytes {
                        file,
                        end,
                        prepared,
                    });
                }
                Err(_) => return Err(StoreError::Memory),
            },
            None => return Err(StoreError::Status(DISK_FULL)),
        }
    }

    // Where a write ends that doesn't pass the room.
    fn end_of(&self, file: u64, at: u64, bytes: &[u8]) -> Option<u64>
        ensures end { IfSome result (λ e. e ≡ at + length bytes.now) }
        ensures rule { (s : Server) → ShowsFiles self.now s → exists s file ≡ true
            → MatchOption result (passes_room s file (at + length bytes.now)
            ≡ true) (λ _. passes_room s file (at + length bytes.now) ≡ false) }
    {
        let end = at as u128 + bytes.len() as u128;
        if self.is_past_room(file, end) {
            return None;
        }
        Some(end as u64)
    }

    /// Does a prepared write. It takes no memory.
    pub fn finish_write(&mut self, new: NewBytes, bytes: &[u8], now: u64)
        ensures shown { (s : Server) (file at : ℕ) → ShowsFiles self.old s → CanWrite self.old new file at bytes.now → exists s file ≡ true
            → is_directory s file ≡ false → passes_room s file (at + length bytes.now) ≡ false
            → ShowsFiles self.new (set_content s file (written at bytes.now (s.content file)) now) }
        ensures held { self.new.held ≤ self.old.held + length bytes.now }
    {
        let file = new.file;
        let basic = touched(self.info(file).basic, now);
        self.put_bytes(new, bytes);
        self.set_basic(file, basic);
    }

    // Does a prepared write, and leaves the times as they are.
    pub(crate) fn put_bytes(&mut self, new: NewBytes, bytes: &[u8])
        ensures shown { (s : Server) (file at : ℕ) → ShowsFiles self.old s → CanWrite self.old new file at bytes.now
            → exists_in s.entries file ≡ true → passes_room s file (at + length bytes.now) ≡ false
            → ShowsFiles self.new (with_content s file (written at bytes.now (s.content file))) }
        ensures held { self.new.held ≤ self.old.held + length bytes.now }
    {
        let file = new.file;
        let length = self.length(file);
        let held = self.held_by(file);
        self.used = self.used_behind(length, length.max(new.end));
        finish_row(&mut self.rows, file, new.prepared, bytes);
        self.held = held_after(self.held, held, self.held_by(file), bytes.len() as u64);
    }

    /// Cuts the file or goes on with zeros, and sets the times of a write (MS-FSA 2.1.5.15.4). It takes no memory.
    /// DISK_FULL where the file would pass the room.
    pub fn set_end(&mut self, file: u64, size: u64, now: u64) -> Result<(), StoreError>
        ensures shown { MatchResult result
            (λ _. (s : Server) → ShowsFiles self.old s → exists s file ≡ true → is_directory s file ≡ false
            → (room_refusal s file size ≡ None) × ShowsFiles self.new (set_content s file (ended size (s.content file)) now))
            (λ e. (s : Server) → ShowsFiles self.old s → exists s file ≡ true → is_directory s file ≡ false
            → StoreRefuses e (room_refusal s file size) × ShowsFiles self.new s) }
        ensures held { self.new.held ≤ self.old.held }
    {
        if self.passes_room(file, size) {
            return Err(StoreError::Status(DISK_FULL));
        }
        self.end(file, size, now);
        Ok(())
    }

    /// The same where it is known that the file doesn't pass the room.
    pub fn end(&mut self, file: u64, size: u64, now: u64)
        ensures shown { (s : Server) → ShowsFiles self.old s → exists s file ≡ true → is_directory s file ≡ false
            → passes_room s file size ≡ false
            → ShowsFiles self.new (set_content s file (ended size (s.content file)) now) }
        ensures held { self.new.held ≤ self.old.held }
    {
        let basic = touched(self.info(file).basic, now);
        self.put_end(file, size);
        self.set_basic(file, basic);
    }

    /// Empties a file and gives it these attributes, as a CREATE does that overwrites it (MS-FSA 2.1.5.1.2.1). It takes
    /// no memory.
    pub fn empty(&mut self, file: u64, attributes: u32, now: u64)
        ensures shown { (s : Server) → ShowsFiles self.old s → exists s file ≡ true → is_directory s file ≡ false
            → ShowsFiles self.new (empty_file s file attributes now) }
        ensures held { self.new.held ≤ self.old.held }
    {
        let basic = emptied(self.info(file).basic, attributes, now);
        self.put_end(file, 0);
        self.set_basic(file, basic);
    }

    // Cuts the file or goes on with zeros, and leaves the times as they are.
    fn put_end(&mut self, file: u64, size: u64)
        ensures shown { (s : Server) → ShowsFiles self.old s → exists s file ≡ true → is_directory s file ≡ false
            → passes_room s file size ≡ false
            → ShowsFiles self.new (with_content s file (ended size (s.content file))) }
        ensures held { self.new.held ≤ self.old.held }
    {
        let length = self.length(file);
        let held = self.held_by(file);
        self.used = self.used_behind(length, size);
        end_row(&mut self.rows, file, size);
        self.held = held_after(self.held, held, self.held_by(file), 0);
    }

    // The sum of the lengths when a file of `length` bytes has `size`, which doesn't pass the room. The room is read so
    // that its range bounds the sum.
    fn used_behind(&self, length: u64, size: u64) -> u64
        ensures { (s : Server) → ShowsFiles self.now s → length ≤ used s
            → (nat_lt s.room ((used s - length) + size) && nat_lt length size) ≡ false
            → result ≡ (used s - length) + size }
    {
        let _room = self.room();
        let others = self.used().saturating_sub(length);
        others.saturating_add(size)
    }

    // How many bytes the pieces of a file have.
    fn held_by(&self, file: u64) -> u64 {
        match self.rows.get(&file) {
            Some(row) => row.bytes.held(),
            None => 0,
        }
    }
}

// The number of bytes of all pieces after those of one file went from `before` to `after`, and rose by at most `most`.
fn held_after(held: u64, before: u64, after: u64, most: u64) -> u64
    ensures { result ≤ held + most }
{
    let more = after.saturating_sub(before).min(most);
    let less = before.saturating_sub(after);
    held.saturating_add(more).saturating_sub(less)
}

#[tactic(auto, unfolding(spec_exchange::specs::Content::past_end))]
fn read_row(row: &Row, at: u64, length: u32) -> Result<Bytes, StoreError>
    ensures { MatchResult result
        (λ b. (c : List ℕ) → IsContent row.now.bytes c → (past_end (Read at length) c ≡ false) × (b ≡ take length (drop at c)))
        (λ e. (c : List ℕ) → IsContent row.now.bytes c → StoreTells e (if past_end (Read at length) c then Some 0xc000_0011 else None)) }
{
    if length != 0 && at >= row.bytes.len() {
        return Err(StoreError::Status(END_OF_FILE));
    }
    match row.bytes.read(at, length as u64) {
        Ok(bytes) => return Ok(Bytes::from_vec(bytes)),
        Err(_) => return Err(StoreError::Memory),
    }
}

fn row_holds(row: &Row, at: u64, bytes: &[u8]) -> Result<bool, AllocError>
    ensures { IfOk result (λ b. (c : List ℕ) → IsContent row.now.bytes c → b ≡ same_bytes (written at bytes.now c) c) }
{
    let there = row.bytes.read(at, bytes.len() as u64)?;
    Ok(there.as_slice() == bytes)
}
