//! A file that is taken out to see what would be without it, and that may come back.
ghost use Rattle.std.specs.Prelude.{◌≡◌, ◌≤◌, ◌<◌, ◌+◌, ℕ, true, false, Some, IfOk, IfSome, MatchResult};
ghost use Rattle.spec_exchange.specs.State.{Server};
ghost use Rattle.spec_exchange.specs.Files.{exists_in, is_full_directory, path_in, remove_file};
ghost use Rattle.store_files.specs.file_tree.Shown.{ShowsFiles, folded};
ghost use Rattle.std.specs.HashMap.{spare};
ghost use Rattle.std.specs.String.{string_bytes};
ghost use Rattle.store_files.specs.file_tree.Gone.{GoneOf};

use crate::file_tree::index::{forget_path, name_path};
use crate::file_tree::make::{make_room, put_row};
use crate::file_tree::row::Row;
use crate::file_tree::tree::Tree;
use std::alloc::AllocError;

/// A file that was taken out, with the key that names it when it comes back.
#[derive(Drop)]
pub struct Gone {
    pub(crate) file: u64,
    pub(crate) row: Row,
    pub(crate) key: String,
    // By how many bytes it lowered what is held.
    pub(crate) held: u64,
}

impl Tree {
    /// Takes out a file or an empty directory that is there, to be put back by `put_back` or dropped. Where memory runs
    /// out nothing changes.
    pub fn take_out(&mut self, file: u64) -> Result<Option<Gone>, AllocError>
        ensures taken { (s : Server) → ShowsFiles self.old s → exists_in s.entries file ≡ true → is_full_directory s file ≡ false
            → MatchResult result (λ g. GoneOf g s file × ShowsFiles self.new (remove_file s file)) (λ _. ShowsFiles self.new s) }
        ensures held { self.new.held ≤ self.old.held }
        ensures lent { IfOk result (λ o. IfSome o (λ g. self.new.held + g.held ≡ self.old.held)) }
    {
        match self.key_to_keep(file) {
            Ok(key) => return Ok(self.part_with(file, key)),
            Err(error) => return Err(error),
        }
    }

    // The key of a file once more.
    fn key_to_keep(&self, file: u64) -> Result<String, AllocError>
        ensures { IfOk result (λ k. (s : Server) → ShowsFiles self.now s → exists_in s.entries file ≡ true
            → string_bytes k ≡ folded (path_in s.entries file)) }
    {
        match self.rows.get(&file) {
            Some(row) => match row.key.clone() {
                Ok(key) => return Ok(key),
                Err(_) => return Err(AllocError),
            },
            None => return Ok(String::new(self.alloc)),
        }
    }

    // Takes out a file, whose key will name it again.
    fn part_with(&mut self, file: u64, key: String) -> Option<Gone>
        ensures taken { (s : Server) → ShowsFiles self.old s → exists_in s.entries file ≡ true → is_full_directory s file ≡ false
            → string_bytes key ≡ folded (path_in s.entries file) → GoneOf result s file × ShowsFiles self.new (remove_file s file) }
        ensures held { self.new.held ≤ self.old.held }
        ensures lent { IfSome result (λ g. self.new.held + g.held ≡ self.old.held) }
    {
        match self.rows.remove(&file) {
            Some(row) => {
                forget_path(&mut self.paths, row.key.as_str());
                let held = self.held.min(row.bytes.held());
                self.used = self.used.saturating_sub(row.bytes.len());
                self.held -= held;
                return Some(Gone {
                    file,
                    row,
                    key,
                    held,
                });
            }
            None => return None,
        }
    }

    /// Puts back a file that `take_out` took, where nothing else changed since. It answers false where there is no
    /// memory for it; the files are then as they were without it.
    pub fn put_back(&mut self, gone: Gone) -> bool
        ensures back { (s : Server) → result ≡ true → ShowsFiles self.old (remove_file s gone.file) → GoneOf (Some gone) s gone.file
            → ShowsFiles self.new s }
        ensures stays { (s : Server) → result ≡ false → ShowsFiles self.old s → ShowsFiles self.new s }
        ensures held { self.new.held ≤ self.old.held + gone.held }
    {
        match make_room(&mut self.rows) {
            Ok(_) => return self.put_in(gone),
            Err(_) => return false,
        }
    }

    // Puts back a file whose row has room.
    fn put_in(&mut self, gone: Gone) -> bool
        requires { 0 < spare self.old.rows }
        ensures back { (s : Server) → result ≡ true → ShowsFiles self.old (remove_file s gone.file) → GoneOf (Some gone) s gone.file
            → ShowsFiles self.new s }
        ensures stays { (s : Server) → result ≡ false → ShowsFiles self.old s → ShowsFiles self.new s }
        ensures held { self.new.held ≤ self.old.held + gone.held }
    {
        match name_path(&mut self.paths, gone.key, gone.file) {
            Ok(_) => {
                self.used = self.used.saturating_add(gone.row.bytes.len());
                self.held = self.held.saturating_add(gone.held);
                put_row(&mut self.rows, gone.file, gone.row);
                return true;
            }
            Err(_) => return false,
        }
    }
}
