//! A file or directory gets another path, and what stands below it with it.
ghost use Rattle.std.specs.Prelude.{◌≡◌, ◌≤◌, ◌+◌, ◌-◌, ◌==◌, nat_eq, ℕ, List, [], ◌∷◌, Bool, true, false, not, ◌&&◌};
ghost use Rattle.std.specs.Prelude.{if◌then◌else◌, is_some, length, drop, ◌++◌, Some, None};
ghost use Rattle.std.specs.Prelude.{OnOk, IfOk, MatchResult};
ghost use Rattle.std.specs.HashMap.{get, hash_map_len};
ghost use Rattle.std.specs.BTreeMap.{get_by_text};
ghost use Rattle.std.specs.Str.{IsCharBoundary};
ghost use Rattle.std.specs.String.{string_bytes};
ghost use Rattle.spec_exchange.specs.State.{Server};
ghost use Rattle.spec_exchange.specs.Table.{has};
ghost use Rattle.spec_exchange.specs.Texts.{is_below};
ghost use Rattle.spec_exchange.specs.Files.{exists, exists_in, find, is_directory, path_of, path_in, rename_file};
ghost use Rattle.spec_exchange.specs.CheckOpen.{target_of};
ghost use Rattle.store_files.specs.file_extents.Kept.{IsContent};
ghost use Rattle.store_files.specs.file_tree.Shown.{ShowsFiles, FileRowFound, folded, FileApart, at_key, path_at};
ghost use Rattle.store_files.specs.file_tree.Refusals.{StoreTells};
ghost use Rattle.store_files.specs.file_tree.Moved.{rename_refusal, move_refusal, target_refusal, same_file, name_within, after_key};
ghost use Rattle.store_files.specs.file_tree.Moved.{Moving, AreMovedNames, AreWithin, IsPushed, IsMovedWhole, IsMovedName, has_name};
ghost use Rattle.store_files.specs.file_tree.Keys.{AreKeysBelow};
ghost use Rattle.store_files.specs.declared.file_tree.row.Row.{Row};

use crate::file_tree::error::StoreError;
use crate::file_tree::find::begins_so;
use crate::file_tree::index::{below_for, starts};
use crate::file_tree::make::{ACCESS_DENIED, OBJECT_NAME_COLLISION, OBJECT_PATH_NOT_FOUND};
use crate::file_tree::new_name::{NewName, give_back, move_keys, put_names, take_keys};
use crate::file_tree::row::Row;
use crate::file_tree::tree::Tree;
use crate::names::{key_of, path_form};
use std::alloc::{AllocError, Global};
use std::collections::BTreeMap;
use wire_bytes::Text;

const INVALID_PARAMETER: u32 = 0xc000_000d;

/// A rename for which there is memory, and whose keys are taken. The file of the new path goes.
#[derive(Drop)]
pub struct Move {
    pub(crate) replaced: Option<u64>,
    pub(crate) names: Vec<NewName>,
}

impl Tree {
    /// Gives a file or directory another path, and each path below it another front (MS-FSA 2.1.5.15.11). With
    /// `replace` the file of that path goes. It takes time as what stands below it. The store knows no opens: that the
    /// file of the new path has none, and nothing below a directory, the caller asks before.
    pub fn rename(&mut self, file: u64, to: &str, replace: bool) -> Result<(), StoreError>
        ensures held { self.new.held ≤ self.old.held }
        ensures done { MatchResult result
            (λ _. (s : Server) → ShowsFiles self.old s → exists s file ≡ true → (rename_refusal s file replace to.now ≡ None)
            × ShowsFiles self.new (rename_file s file (target_of file (find s to.now)) to.now))
            (λ e. (s : Server) → ShowsFiles self.old s → exists s file ≡ true
            → StoreTells e (rename_refusal s file replace to.now) × ShowsFiles self.new s) }
    {
        match self.prepare_rename(file, to, replace) {
            Ok(moved) => {
                self.finish_rename(moved);
                return Ok(());
            }
            Err(error) => return Err(error),
        }
    }

    /// Takes the memory for a rename, which `finish_rename` then does, or `cancel_rename` gives up. One of the two must
    /// come next.
    pub fn prepare_rename(&mut self, file: u64, to: &str, replace: bool) -> Result<Move, StoreError>
        ensures held { self.new.held ≡ self.old.held }
        ensures prepared { MatchResult result
            (λ m. (s : Server) → ShowsFiles self.old s → exists s file ≡ true
            → (rename_refusal s file replace to.now ≡ None) × Moving self.new m s file to.now)
            (λ e. (s : Server) → ShowsFiles self.old s → exists s file ≡ true
            → StoreTells e (rename_refusal s file replace to.now) × ShowsFiles self.new s) }
    {
        match self.rename_refusal(file, to, replace) {
            Some(status) => return Err(StoreError::Status(status)),
            None => match self.take_names(file, to) {
                Ok(moved) => return Ok(moved),
                Err(_) => return Err(StoreError::Memory),
            },
        }
    }

    // Takes the memory for a rename that nothing forbids.
    fn take_names(&mut self, file: u64, to: &str) -> Result<Move, AllocError>
        ensures held { self.new.held ≡ self.old.held }
        ensures prepared { MatchResult result
            (λ m. (s : Server) (replace : Bool) → ShowsFiles self.old s → exists s file ≡ true
            → rename_refusal s file replace to.now ≡ None → Moving self.new m s file to.now)
            (λ e. (s : Server) (replace : Bool) → ShowsFiles self.old s → exists s file ≡ true
            → rename_refusal s file replace to.now ≡ None → ShowsFiles self.new s) }
    {
        let replaced = self.target(file, to);
        match self.new_names(file, to) {
            Ok(names) => match take_keys(&mut self.paths, &self.rows, &names) {
                Ok(_) => return Ok(Move { replaced, names }),
                Err(error) => return Err(error),
            },
            Err(error) => return Err(error),
        }
    }

    // The file that stands at the new path, if it is another one.
    fn target(&self, file: u64, to: &str) -> Option<u64>
        ensures { (s : Server) → ShowsFiles self.now s → result ≡ target_of file (find s to.now) }
    {
        match self.find(to) {
            Some(target) => {
                if target == file {
                    return None;
                }
                return Some(target);
            }
            None => return None,
        }
    }

    /// Does a prepared rename. It takes no memory.
    pub fn finish_rename(&mut self, moved: Move)
        ensures shown { (s : Server) (file : ℕ) (to : List ℕ) → Moving self.old moved s file to
            → ShowsFiles self.new (rename_file s file (target_of file (find s to)) to) }
        ensures held { self.new.held ≤ self.old.held }
    {
        // Before the names, since a row still has the key that is to be forgotten.
        move_keys(&mut self.paths, &self.rows, &moved.names);
        self.drop_row(moved.replaced);
        put_names(&mut self.rows, moved.names);
    }

    /// Gives up a prepared rename: the files are as before. It takes no memory.
    pub fn cancel_rename(&mut self, moved: Move)
        ensures held { self.new.held ≡ self.old.held }
        ensures shown { (s : Server) (file : ℕ) (to : List ℕ) → Moving self.old moved s file to → ShowsFiles self.new s }
    {
        give_back(&mut self.paths, &self.rows, &moved.names);
    }

    /// Whether the path would stand below the directory.
    pub fn stands_below(&self, file: u64, path: &str) -> bool
        ensures { (s : Server) → ShowsFiles self.now s → exists s file ≡ true → result
            ≡ (is_directory s file && is_below (path_of s file) path.now) }
    {
        if file == 0 {
            return !path.is_empty();
        }
        match self.row(file) {
            Some(row) => return stands_below_row(row, path),
            None => return false,
        }
    }

    // The status of the first rule that the rename breaks.
    fn rename_refusal(&self, file: u64, to: &str, replace: bool) -> Option<u32>
        ensures { (s : Server) → ShowsFiles self.now s → exists s file ≡ true → result ≡ rename_refusal s file replace to.now }
    {
        match path_form(to) {
            Some(status) => return Some(status),
            None => return self.move_refusal(file, to, replace),
        }
    }

    fn move_refusal(&self, file: u64, to: &str, replace: bool) -> Option<u32>
        ensures { (s : Server) → ShowsFiles self.now s → exists s file ≡ true → result ≡ move_refusal s file replace to.now }
    {
        if file == 0 {
            return Some(ACCESS_DENIED);
        }
        if self.stands_below(file, to) {
            return Some(INVALID_PARAMETER);
        }
        if !self.has_parent(to) {
            return Some(OBJECT_PATH_NOT_FOUND);
        }
        self.target_refusal(file, to, replace)
    }

    fn target_refusal(&self, file: u64, to: &str, replace: bool) -> Option<u32>
        ensures { (s : Server) → ShowsFiles self.now s → result ≡ target_refusal s file replace to.now }
    {
        if self.is_collision(to, replace) {
            return Some(OBJECT_NAME_COLLISION);
        }
        match self.target(file, to) {
            Some(target) => {
                if self.is_directory(target) {
                    return Some(ACCESS_DENIED);
                }
                return None;
            }
            None => return None,
        }
    }

    // Whether something stands at the path that isn't to be replaced.
    fn is_collision(&self, to: &str, replace: bool) -> bool
        ensures { (s : Server) → ShowsFiles self.now s → result ≡ (not replace && is_some (find s to.now)) }
    {
        let is_found = self.find(to).is_some();
        !replace & is_found
    }

    /// The numbers of all that stands below a directory, at any depth. It takes time as there are.
    pub fn below(&self, directory: u64) -> Result<Vec<u64>, AllocError>
        ensures { IfOk result (λ v. (s : Server) → ShowsFiles self.now s → exists s directory ≡ true
            → (g : ℕ) → has g v.items
            ≡ (is_directory s directory
            && (exists_in s.entries g && is_below (path_of s directory) (path_in s.entries g)))) }
    {
        match self.row(directory) {
            Some(row) => {
                let files = self.below_row(row)?;
                return Ok(files);
            }
            None => return Ok(Vec::new(self.alloc)),
        }
    }

    fn below_row(&self, row: &Row) -> Result<Vec<u64>, AllocError>
        ensures { IfOk result (λ v. (s : Server) (f : ℕ) → ShowsFiles self.now s → FileRowFound (Some row.now) s f
            → (g : ℕ) → has g v.items ≡ (is_directory s f && (exists_in s.entries g && is_below (path_of s f) (path_in s.entries g)))) }
    {
        if row.directory {
            let files = files_from(self.alloc, &self.paths, &row.below)?;
            return Ok(files);
        }
        Ok(Vec::new(self.alloc))
    }

    // The names of a file or directory at its new path, and of all that stands below it.
    fn new_names(&self, file: u64, to: &str) -> Result<Vec<NewName>, AllocError>
        ensures { IfOk result (λ v. (s : Server) → ShowsFiles self.now s → exists_in s.entries file ≡ true
            → AreMovedNames v.items s.entries s.directory (path_of s file) to.now × IsMovedWhole v.items s.entries (path_of s file)) }
    {
        match self.rows.get(&file) {
            Some(row) => {
                let below = self.below_row(row)?;
                let names = self.names_behind(file, &below, row.path.len(), to)?;
                return Ok(names);
            }
            None => return Ok(Vec::new(self.alloc)),
        }
    }

    // The names of a file and of others behind a front of so many bytes.
    fn names_behind(
        &self,
        file: u64,
        below: &[u64],
        front: usize,
        to: &str,
    ) -> Result<Vec<NewName>, AllocError>
        ensures { IfOk result (λ v. (s : Server) (old : List ℕ) → ShowsFiles self.now s → (length old == 0) ≡ false → front ≡ length old
            → AreWithin (file ∷ below.now) s old
            → AreMovedNames v.items s.entries s.directory old to.now × ((g : ℕ) → has_name v.items g ≡ has g (file ∷ below.now))) }
    {
        let mut names = Vec::new(self.alloc);
        self.push_name(&mut names, file, front, to)?;
        for i in 0..below.len() {
            self.push_name(&mut names, below[i], front, to)?;
        }
        Ok(names)
    }

    fn push_name(
        &self,
        names: &mut Vec<NewName>,
        file: u64,
        front: usize,
        to: &str,
    ) -> Result<(), AllocError>
        ensures { OnOk result ((s : Server) (old : List ℕ) → ShowsFiles self.now s → (length old == 0) ≡ false → front ≡ length old
            → exists_in s.entries file ≡ true → name_within (after_key (folded old) (folded (path_in s.entries file))) ≡ true
            → IsPushed names.old.items names.new.items s file old to.now) }
    {
        match self.rows.get(&file) {
            Some(row) => {
                let name = new_name(self.alloc, file, row, front, to)?;
                names.push(name)?;
                return Ok(());
            }
            None => return Ok(()),
        }
    }

    // The row of the file that goes.
    fn drop_row(&mut self, file: Option<u64>)
        ensures rows { (q : ℕ) → get nat_eq self.new.rows q ≡ (if same_file file q then None else get nat_eq self.old.rows q) }
        ensures count { (g : ℕ) → file ≡ Some g → is_some (get nat_eq self.old.rows g) ≡ true
            → hash_map_len self.new.rows + 1 ≡ hash_map_len self.old.rows }
        ensures used { (g : ℕ) (r : Row) (c : List ℕ) → file ≡ Some g → get nat_eq self.old.rows g ≡ Some r → IsContent r.bytes c
            → self.new.used ≡ self.old.used - length c }
        ensures none { file ≡ None → (self.new.used ≡ self.old.used) × (hash_map_len self.new.rows ≡ hash_map_len self.old.rows) }
        ensures rest { (self.new.paths ≡ self.old.paths) × (self.new.root ≡ self.old.root)
            × (self.new.next ≡ self.old.next) × (self.new.room ≡ self.old.room) }
        ensures held { self.new.held ≤ self.old.held }
    {
        match file {
            Some(file) => match self.rows.remove(&file) {
                Some(row) => {
                    self.used = self.used.saturating_sub(row.bytes.len());
                    self.held = self.held.saturating_sub(row.bytes.held());
                    return;
                }
                None => return,
            },
            None => return,
        }
    }
}

// The files of the keys that begin so, in their order.
fn files_from(
    alloc: Global,
    paths: &BTreeMap<String, u64>,
    front: &String,
) -> Result<Vec<u64>, AllocError>
    ensures { IfOk result (λ v. AreKeysBelow (λ q. get_by_text paths.now q) (string_bytes front.now) v.items) }
{
    let mut files = Vec::new(alloc);
    for (key, file) in paths.range(front..) {
        if !starts(key.as_str(), front.as_str()) {
            return Ok(files);
        }
        files.push(*file)?;
    }
    Ok(files)
}

// The path behind another front.
fn new_name(
    alloc: Global,
    file: u64,
    row: &Row,
    front: usize,
    to: &str,
) -> Result<NewName, AllocError>
    ensures { IfOk result (λ n. (n.file ≡ file)
        × (IsCharBoundary row.now.path front → IsMovedName n (to.now ++ drop front row.now.path) row.now.directory)) }
{
    let mut path = Text::from_str(alloc, to)?;
    path.push_str(rest_of(row.path.as_str(), front))?;
    let key = key_of(alloc, path.as_str())?;
    let below = below_for(alloc, path.as_str(), row.directory)?;
    Ok(NewName {
        file,
        path,
        key,
        below,
    })
}

// What stands behind the front.
fn rest_of(path: &str, front: usize) -> &str
    ensures { IsCharBoundary path.now front → result.now ≡ drop front path.now }
{
    if path.is_char_boundary(front) {
        return &path[front..];
    }
    ""
}

// Whether the path would stand below the row's directory.
fn stands_below_row(row: &Row, path: &str) -> bool
    ensures { (s : Server) (f : ℕ) → FileApart s.entries → at_key s.entries [] ≡ None → path_at s.entries 0 ≡ None
        → (f == 0) ≡ false → FileRowFound (Some row.now) s f → result
        ≡ (is_directory s f && is_below (path_of s f) path.now) }
{
    row.directory && begins_so(path, row.below.as_str())
}
