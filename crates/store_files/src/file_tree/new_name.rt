//! The keys of a rename, one after the other: taken, given back, or moved.
ghost use Rattle.std.specs.Prelude.{◌≡◌, ◌==◌, nat_eq, ℕ, List, take, Some, None, not, ◌&&◌, if◌then◌else◌, OnOk, OnErr};
ghost use Rattle.std.specs.Str.{bytes_eq};
ghost use Rattle.std.specs.String.{string_bytes};
ghost use Rattle.std.specs.HashMap.{get, hash_map_len};
ghost use Rattle.std.specs.BTreeMap.{get_by_text};
ghost use Rattle.store_files.specs.file_tree.Moved.{same_file, row_key, name_taken, given_back, moved_to, one_by_one};
ghost use Rattle.store_files.specs.file_tree.Moved.{named_row, with_names};
ghost use Rattle.store_files.specs.declared.file_tree.row.Row.{Row};

use crate::file_tree::index::{forget_path, name_path, set_path};
use crate::file_tree::row::Row;
use std::alloc::AllocError;
use std::collections::{BTreeMap, HashMap};
use wire_bytes::Text;

/// What a file gets: its path, its key and with what the keys begin of what stands below it.
#[derive(Drop)]
pub struct NewName {
    pub(crate) file: u64,
    pub(crate) path: Text,
    pub(crate) key: String,
    pub(crate) below: String,
}

// Each key that named nothing names the file that is to have it. For want of memory those that were taken are given back.
pub fn take_keys(
    paths: &mut BTreeMap<String, u64>,
    rows: &HashMap<u64, Row>,
    names: &[NewName],
) -> Result<(), AllocError>
    ensures ok { OnOk result ((q : List ℕ) → get_by_text paths.new q ≡ one_by_one name_taken names.now q (get_by_text paths.old q)) }
    ensures err { OnErr result ((i : ℕ) × ((q : List ℕ) → get_by_text paths.new q
        ≡ one_by_one (given_back (λ f. get nat_eq rows.now f)) (take i names.now) q
        (one_by_one name_taken (take i names.now) q (get_by_text paths.old q)))) }
{
    for i in 0..names.len() {
        match take_key(paths, &names[i]) {
            Ok(_) => {}
            Err(error) => {
                give_back(paths, rows, &names[..i]);
                return Err(error);
            }
        }
    }
    Ok(())
}

fn take_key(paths: &mut BTreeMap<String, u64>, name: &NewName) -> Result<(), AllocError>
    ensures ok { OnOk result ((q : List ℕ) → get_by_text paths.new q ≡ name_taken name.now q (get_by_text paths.old q)) }
    ensures err { OnErr result ((q : List ℕ) → get_by_text paths.new q ≡ get_by_text paths.old q) }
{
    match paths.get(name.key.as_str()) {
        Some(_) => return Ok(()),
        None => return take_new_key(paths, name),
    }
}

fn take_new_key(paths: &mut BTreeMap<String, u64>, name: &NewName) -> Result<(), AllocError>
    ensures ok { OnOk result ((q : List ℕ) → get_by_text paths.new q
        ≡ (if bytes_eq (string_bytes name.now.key) q then Some name.now.file else get_by_text paths.old q)) }
    ensures err { OnErr result ((q : List ℕ) → get_by_text paths.new q ≡ get_by_text paths.old q) }
{
    match name.key.clone() {
        Ok(key) => return name_path(paths, key, name.file),
        Err(_) => return Err(AllocError),
    }
}

// Keys that were taken name nothing again.
pub fn give_back(paths: &mut BTreeMap<String, u64>, rows: &HashMap<u64, Row>, names: &[NewName])
    ensures { (q : List ℕ) → get_by_text paths.new q
        ≡ one_by_one (given_back (λ f. get nat_eq rows.now f)) names.now q (get_by_text paths.old q) }
{
    for i in 0..names.len() {
        give_one(paths, rows, &names[i]);
    }
}

fn give_one(paths: &mut BTreeMap<String, u64>, rows: &HashMap<u64, Row>, name: &NewName)
    ensures { (q : List ℕ) → get_by_text paths.new q ≡ given_back (λ f. get nat_eq rows.now f) name.now q (get_by_text paths.old q) }
{
    if is_taken(paths, rows, name) {
        forget_path(paths, name.key.as_str());
        return;
    }
}

// Whether the name's key names its file, which has another key.
fn is_taken(paths: &BTreeMap<String, u64>, rows: &HashMap<u64, Row>, name: &NewName) -> bool
    ensures { result ≡ (same_file (get_by_text paths.now (string_bytes name.now.key)) name.now.file
        && not (row_key (get nat_eq rows.now name.now.file) (string_bytes name.now.key))) }
{
    match paths.get(name.key.as_str()) {
        Some(file) => return is_owed(rows, name, *file),
        None => return false,
    }
}

// Whether the file is the name's, and has another key.
fn is_owed(rows: &HashMap<u64, Row>, name: &NewName, file: u64) -> bool
    ensures { result ≡ ((file == name.now.file) && not (row_key (get nat_eq rows.now name.now.file) (string_bytes name.now.key))) }
{
    let is_same = file == name.file;
    is_same & !has_key(rows, name)
}

// Whether the file has the key already.
fn has_key(rows: &HashMap<u64, Row>, name: &NewName) -> bool
    ensures { result ≡ row_key (get nat_eq rows.now name.now.file) (string_bytes name.now.key) }
{
    match rows.get(&name.file) {
        Some(row) => return row.key.as_bytes() == name.key.as_bytes(),
        None => return false,
    }
}

// The new keys name the files that are to have them, and the old ones nothing.
pub fn move_keys(paths: &mut BTreeMap<String, u64>, rows: &HashMap<u64, Row>, names: &[NewName])
    ensures { (q : List ℕ) → get_by_text paths.new q
        ≡ one_by_one (moved_to (λ f. get nat_eq rows.now f)) names.now q (get_by_text paths.old q) }
{
    for i in 0..names.len() {
        move_key(paths, rows, &names[i]);
    }
}

fn move_key(paths: &mut BTreeMap<String, u64>, rows: &HashMap<u64, Row>, name: &NewName)
    ensures { (q : List ℕ) → get_by_text paths.new q ≡ moved_to (λ f. get nat_eq rows.now f) name.now q (get_by_text paths.old q) }
{
    // A rename that changes case alone keeps its key, which must not be forgotten.
    if has_key(rows, name) {
        set_path(paths, name.key.as_str(), name.file);
        return;
    }
    forget_old(paths, rows, name.file);
    set_path(paths, name.key.as_str(), name.file);
}

// The file's old key names nothing.
fn forget_old(paths: &mut BTreeMap<String, u64>, rows: &HashMap<u64, Row>, file: u64)
    ensures { (q : List ℕ) → get_by_text paths.new q ≡ (if row_key (get nat_eq rows.now file) q then None else get_by_text paths.old q) }
{
    match rows.get(&file) {
        Some(row) => {
            forget_path(paths, row.key.as_str());
            return;
        }
        None => return,
    }
}

// The files get their names.
pub fn put_names(rows: &mut HashMap<u64, Row>, names: Vec<NewName>)
    ensures rows { (f : ℕ) → get nat_eq rows.new f ≡ with_names names.items f (get nat_eq rows.old f) }
    ensures count { hash_map_len rows.new ≡ hash_map_len rows.old }
{
    for name in names {
        put_name(rows, name);
    }
}

fn put_name(rows: &mut HashMap<u64, Row>, name: NewName)
    ensures rows { (f : ℕ) → get nat_eq rows.new f ≡ named_row name f (get nat_eq rows.old f) }
    ensures count { hash_map_len rows.new ≡ hash_map_len rows.old }
{
    if let Some(row) = rows.get_mut(&name.file) {
        row.path = name.path;
        row.key = name.key;
        row.below = name.below;
    }
}
