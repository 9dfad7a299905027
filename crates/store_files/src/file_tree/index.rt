//! The index of paths: a path in upper case names a file's number.
ghost use Rattle.std.specs.Prelude.{◌≡◌, ℕ, true, List, map, Some, None, OnOk, OnErr, IfOk, if◌then◌else◌, option_map};
ghost use Rattle.std.specs.BTreeMap.{get_by_text};
ghost use Rattle.std.specs.String.{string_bytes};
ghost use Rattle.std.specs.Str.{bytes_eq};
ghost use Rattle.store_files.specs.file_tree.Shown.{folded, below_key};
ghost use Rattle.store_files.specs.file_tree.Keys.{key_begins, IsNext};

use std::alloc::{AllocError, Global};
use std::collections::BTreeMap;

// With what the keys begin of what stands below a key.
pub fn below_of(alloc: Global, path: &str) -> Result<String, AllocError>
    ensures { IfOk result (λ k. string_bytes k ≡ below_key path.now) }
{
    let mut key = path.to_ascii_uppercase(alloc)?;
    key.push('\\')?;
    Ok(key)
}

// With what the keys begin of what stands below a directory; nothing for a file.
pub fn below_for(alloc: Global, path: &str, directory: bool) -> Result<String, AllocError>
    ensures { IfOk result (λ k. directory ≡ true → string_bytes k ≡ below_key path.now) }
{
    if directory {
        return below_of(alloc, path);
    }
    Ok(String::new(alloc))
}

// The key names the file. It takes memory only where it named nothing.
pub fn name_path(
    paths: &mut BTreeMap<String, u64>,
    key: String,
    file: u64,
) -> Result<(), AllocError>
    ensures ok { OnOk result ((q : List ℕ) → get_by_text paths.new q
        ≡ (if bytes_eq (string_bytes key) q then Some file else get_by_text paths.old q)) }
    ensures err { OnErr result ((q : List ℕ) → get_by_text paths.new q ≡ get_by_text paths.old q) }
{
    match paths.insert(key, file) {
        Ok(_) => return Ok(()),
        Err(_) => return Err(AllocError),
    }
}

// The key names another file, where it names one.
pub fn set_path(paths: &mut BTreeMap<String, u64>, key: &str, file: u64)
    ensures { (q : List ℕ) → get_by_text paths.new q
        ≡ (if bytes_eq key.now q then option_map (λ (_ : ℕ). file) (get_by_text paths.old q) else get_by_text paths.old
        q) }
{
    match paths.get_mut(key) {
        Some(named) => {
            *named = file;
            return;
        }
        None => return,
    }
}

// The key names nothing.
pub fn forget_path(paths: &mut BTreeMap<String, u64>, key: &str)
    ensures { (q : List ℕ) → get_by_text paths.new q ≡ (if bytes_eq key.now q then None else get_by_text paths.old q) }
{
    let _ = paths.remove(key);
}

// The least key from a start on.
pub fn next_key<'a>(paths: &'a BTreeMap<String, u64>, start: &String) -> Option<&'a String>
    ensures { IsNext (option_map (λ k. string_bytes k.now) result) (λ q. get_by_text paths.now q) (string_bytes start.now) }
{
    match paths.range(start..).next() {
        Some((key, _)) => return Some(key),
        None => return None,
    }
}

// Whether a text begins so.
pub fn starts(text: &str, front: &str) -> bool
    ensures { result ≡ key_begins front.now text.now }
{
    text.as_bytes().starts_with(front.as_bytes())
}
