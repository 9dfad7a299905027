ghost use Rattle.std.specs.Prelude.{◌≡◌, ℕ, ◌==◌, true, [], length, Option, Some, if◌then◌else◌, nat_eq, option_map, option_copied};
ghost use Rattle.std.specs.HashMap.{get, hash_map_len};
ghost use Rattle.spec_exchange.specs.State.{Server};
ghost use Rattle.spec_exchange.specs.Files.{exists, info_of, path_of, store_basic, set_delete_pending, used};
ghost use Rattle.store_files.specs.file_tree.Shown.{ShowsFiles, FileRowFound, model_info, FileBegins};
ghost use Rattle.store_files.specs.declared.file_tree.row.Row.{Row};

use crate::file_extents::Extents;
use crate::file_tree::row::{Info, Row, info_of, times_at};
use spec_exchange::values::Basic;
use std::alloc::Global;
use std::collections::{BTreeMap, HashMap};
use wire_bytes::Text;

/// The sum of the files' lengths, and how many bytes it may come to.
#[derive(Clone, Copy)]
pub struct Space {
    pub used: u64,
    pub room: u64,
}

/// The files of the share.
#[derive(Drop)]
pub struct Tree {
    pub(crate) rows: HashMap<u64, Row>,
    // Ordered, so that what stands below a directory is one run of keys: for a listing, a rename, and whether it is
    // empty.
    pub(crate) paths: BTreeMap<String, u64>,
    pub(crate) root: Row,
    pub(crate) next: u64,
    pub(crate) used: u64,
    pub(crate) room: u64,
    pub(crate) held: u64,
    pub(crate) alloc: Global,
}

fn put_basic(rows: &mut HashMap<u64, Row>, file: u64, basic: Basic)
    ensures rows { (q : ℕ) → get nat_eq rows.new q
        ≡ (if q == file then option_map (λ (r : Row). record r { basic = basic }) (get nat_eq rows.old q) else get nat_eq rows.old q) }
    ensures count { hash_map_len rows.new ≡ hash_map_len rows.old }
{
    if let Some(row) = rows.get_mut(&file) {
        row.basic = basic;
    }
}

fn put_delete_pending(rows: &mut HashMap<u64, Row>, file: u64, delete_pending: bool)
    ensures rows { (q : ℕ) → get nat_eq rows.new q
        ≡ (if q == file then option_map (λ (r : Row). record r { delete_pending = delete_pending })
        (get nat_eq rows.old q) else get nat_eq rows.old q) }
    ensures count { hash_map_len rows.new ≡ hash_map_len rows.old }
{
    if let Some(row) = rows.get_mut(&file) {
        row.delete_pending = delete_pending;
    }
}

impl Tree {
    /// No files but the root, whose times are 0, where all files together may have `room` bytes. It takes no memory.
    pub fn new(alloc: Global, room: u64) -> Tree
        ensures shown { (s : Server) → FileBegins s → s.room ≡ room → ShowsFiles result s }
        ensures held { result.held ≡ 0 }
    {
        Tree {
            rows: HashMap::new(alloc),
            paths: BTreeMap::new(alloc),
            root: Row {
                path: Text::new(alloc),
                key: String::new(alloc),
                below: String::new(alloc),
                directory: true,
                delete_pending: false,
                basic: times_at(0, 0),
                bytes: Extents::new(alloc),
            },
            next: 1,
            used: 0,
            room,
            held: 0,
            alloc,
        }
    }

    // The row of a file or directory.
    pub(crate) fn row(&self, file: u64) -> Option<&Row>
        ensures { (s : Server) → ShowsFiles self.now s → FileRowFound (option_copied result) s file }
    {
        if file == 0 {
            return Some(&self.root);
        }
        self.rows.get(&file)
    }

    /// The path of a file, borrowed from its row. So a directory's new name is written into each path below it, and
    /// renaming it takes time as what stands there.
    pub fn path(&self, file: u64) -> &str
        ensures { (s : Server) → ShowsFiles self.now s → result.now ≡ path_of s file }
    {
        match self.row(file) {
            Some(row) => return row.path.as_str(),
            None => return "",
        }
    }

    /// The path of a file or directory that is there, as its row has it.
    pub fn text(&self, file: u64) -> Option<&Text>
        ensures { (s : Server) → ShowsFiles self.now s → exists s file ≡ true → option_copied result ≡ Some (path_of s file) }
    {
        match self.row(file) {
            Some(row) => return Some(&row.path),
            None => return None,
        }
    }

    /// What is known of a file or directory that is there.
    pub fn info(&self, file: u64) -> Info
        ensures { (s : Server) → ShowsFiles self.now s → exists s file ≡ true → model_info result ≡ info_of s file }
    {
        match self.row(file) {
            Some(row) => return info_of(file, row),
            None => return info_of(file, &self.root),
        }
    }

    /// Sets the times and attributes as they are given.
    pub fn set_basic(&mut self, file: u64, basic: Basic)
        ensures shown { (s : Server) → ShowsFiles self.old s → ShowsFiles self.new (store_basic s file basic) }
        ensures held { self.new.held ≡ self.old.held }
    {
        if file == 0 {
            self.root.basic = basic;
        }
        put_basic(&mut self.rows, file, basic);
    }

    /// Makes a file delete pending (DeletePending of FileDispositionInformation, MS-FSCC 2.4.11), or takes that back.
    pub fn mark(&mut self, file: u64, deleted: bool)
        ensures shown { (s : Server) → ShowsFiles self.old s → ShowsFiles self.new (set_delete_pending s file deleted) }
        ensures held { self.new.held ≡ self.old.held }
    {
        if file == 0 {
            self.root.delete_pending = deleted;
        }
        put_delete_pending(&mut self.rows, file, deleted);
    }

    /// The sum of the files' lengths.
    pub fn used(&self) -> u64
        ensures { (s : Server) → ShowsFiles self.now s → result ≡ used s }
    {
        self.used
    }

    /// The sum of the files' lengths, and how many bytes it may come to.
    pub fn space(&self) -> Space
        ensures used { (s : Server) → ShowsFiles self.now s → result.used ≡ used s }
        ensures room { (s : Server) → ShowsFiles self.now s → result.room ≡ s.room }
    {
        Space {
            used: self.used,
            room: self.room,
        }
    }

    /// The number that the next file gets.
    pub fn next_file(&self) -> u64
        ensures field { result ≡ self.now.next }
        ensures shown { (s : Server) → ShowsFiles self.now s → result ≡ s.next_file }
    {
        self.next
    }

    /// How many files and directories there are beside the root.
    pub fn count(&self) -> usize
        ensures { (s : Server) → ShowsFiles self.now s → result ≡ length s.entries }
    {
        self.rows.len()
    }
}
