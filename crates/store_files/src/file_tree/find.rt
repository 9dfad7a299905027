ghost use Rattle.std.specs.Prelude.{◌≡◌, ◌==◌, ℕ, List, length, true, false, Some, ◌<◌, ◌+◌, drop};
ghost use Rattle.std.specs.String.{string_bytes};
ghost use Rattle.spec_exchange.specs.State.{Server};
ghost use Rattle.spec_exchange.specs.Files.{find, exists, is_directory, has_parent, has_pending_parent, is_full_directory, has_below};
ghost use Rattle.spec_exchange.specs.Texts.{parent_of};
ghost use Rattle.store_files.specs.file_tree.Shown.{ShowsFiles, folded, at_key, below_key, FileRowFound};
ghost use Rattle.std.specs.Str.{bytes_eq};
ghost use Rattle.store_files.specs.file_tree.Keys.{key_begins};

use crate::file_tree::index::{next_key, starts};
use crate::file_tree::row::Row;
use crate::file_tree::tree::Tree;
use std::str;

// No path of a request is longer: 1,024 UTF-16 units of three bytes each.
const MAX_BYTES: usize = 3072;

impl Tree {
    /// The number of the file or directory of a path, by ASCII case. It takes no memory. Past 3,072 bytes, which no
    /// request has, it looks at every path.
    #[tactic(auto, using(crate::proofs::file_tree::Keys::find_root, crate::proofs::file_tree::Keys::find_other))]
    pub fn find(&self, path: &str) -> Option<u64>
        ensures { (s : Server) → ShowsFiles self.now s → result ≡ find s path.now }
    {
        if path.is_empty() {
            return Some(0);
        }
        if path.len() > MAX_BYTES {
            return self.find_long(path);
        }
        // On the stack: a look-up takes no memory, so the checks of a CREATE never lack any.
        let mut buffer = [0; MAX_BYTES];
        self.find_folded(path, &mut buffer[..path.len()])
    }

    // The file of a path, with room in which its key is spelled.
    fn find_folded(&self, path: &str, key: &mut [u8]) -> Option<u64>
        requires { length key.old ≡ length path.now }
        ensures { (s : Server) → ShowsFiles self.now s → result ≡ at_key s.entries (folded path.now) }
    {
        key.copy_from_slice(path.as_bytes());
        key.make_ascii_uppercase();
        match str::from_utf8(key) {
            Ok(key) => return self.at(key),
            Err(_) => return None,
        }
    }

    // The file of a path that is too long for a request; only a directory's new name can have made it so long.
    #[tactic(auto, using(crate::proofs::file_tree::Long::passed))]
    fn find_long(&self, path: &str) -> Option<u64>
        ensures { (s : Server) → ShowsFiles self.now s → result ≡ at_key s.entries (folded path.now) }
    {
        for (key, file) in &self.paths {
            if is_key_of(key, path) {
                return Some(*file);
            }
        }
        None
    }

    /// The file or directory of a key, which is a path in upper case.
    pub(crate) fn at(&self, key: &str) -> Option<u64>
        ensures { (s : Server) → ShowsFiles self.now s → result ≡ at_key s.entries key.now }
    {
        self.paths.get(key).copied()
    }

    /// Whether the number names a file or directory. The root is always there.
    pub fn exists(&self, file: u64) -> bool
        ensures { (s : Server) → ShowsFiles self.now s → result ≡ exists s file }
    {
        match self.row(file) {
            Some(_) => return true,
            None => return false,
        }
    }

    /// Whether what is there is a directory.
    pub fn is_directory(&self, file: u64) -> bool
        ensures { (s : Server) → ShowsFiles self.now s → exists s file ≡ true → result ≡ is_directory s file }
    {
        match self.row(file) {
            Some(row) => return row.directory,
            None => return false,
        }
    }

    /// Whether the directory is there in which the path would stand.
    pub fn has_parent(&self, path: &str) -> bool
        ensures { (s : Server) → ShowsFiles self.now s → result ≡ has_parent s path.now }
    {
        match self.find(parent_of(path)) {
            Some(file) => return self.is_directory(file),
            None => return false,
        }
    }

    /// Whether the directory in which the path would stand is delete pending.
    pub fn has_pending_parent(&self, path: &str) -> bool
        ensures { (s : Server) → ShowsFiles self.now s → result ≡ has_pending_parent s path.now }
    {
        match self.find(parent_of(path)) {
            Some(file) => return self.info(file).marked,
            None => return false,
        }
    }

    /// Whether what is there is a directory in which something stands.
    pub fn is_full(&self, file: u64) -> bool
        ensures { (s : Server) → ShowsFiles self.now s → exists s file ≡ true → result ≡ is_full_directory s file }
    {
        if file == 0 {
            return self.full_root();
        }
        match self.row(file) {
            Some(row) => return self.full_row(row),
            None => return false,
        }
    }

    fn full_root(&self) -> bool
        ensures { (s : Server) → ShowsFiles self.now s → result ≡ is_full_directory s 0 }
    {
        self.count() != 0
    }

    fn full_row(&self, row: &Row) -> bool
        ensures { (s : Server) → ShowsFiles self.now s → (f : ℕ) → (f == 0) ≡ false → FileRowFound (Some row.now) s f
            → result ≡ is_full_directory s f }
    {
        if row.directory {
            return self.has_below(&row.below);
        }
        false
    }

    // Whether some key begins so.
    fn has_below(&self, below: &String) -> bool
        ensures { (s : Server) → ShowsFiles self.now s → (p : List ℕ) → (length p == 0) ≡ false → string_bytes below.now ≡ below_key p
            → result ≡ has_below s.entries p }
    {
        match next_key(&self.paths, below) {
            Some(key) => return starts(key.as_str(), below.as_str()),
            None => return false,
        }
    }
}

// Whether the path in upper case begins so.
pub fn begins_so(path: &str, front: &str) -> bool
    ensures { result ≡ key_begins front.now (folded path.now) }
{
    let path = path.as_bytes();
    let front = front.as_bytes();
    if path.len() < front.len() {
        return false;
    }
    is_upper_of(front, &path[..front.len()])
}

// Whether the key is the path in upper case.
fn is_key_of(key: &String, path: &str) -> bool
    ensures { result ≡ bytes_eq (folded path.now) (string_bytes key.now) }
{
    is_upper_of(key.as_bytes(), path.as_bytes())
}

fn is_upper_of(key: &[u8], path: &[u8]) -> bool
    ensures { result ≡ bytes_eq (folded path.now) key.now }
{
    if key.len() != path.len() {
        return false;
    }
    let mut i = 0;
    while i < key.len() {
        if !is_upper_at(key, path, i) {
            return false;
        }
        i += 1;
    }
    true
}

// Whether the bytes at a place are alike, so that what follows decides.
fn is_upper_at(key: &[u8], path: &[u8], i: usize) -> bool
    requires { (i < length key.now) × (i < length path.now) }
    ensures alike { result ≡ true → bytes_eq (drop i (folded path.now)) (drop i key.now)
        ≡ bytes_eq (drop (i + 1) (folded path.now)) (drop (i + 1) key.now) }
    ensures differs { result ≡ false → bytes_eq (drop i (folded path.now)) (drop i key.now) ≡ false }
{
    key[i] == path[i].to_ascii_uppercase()
}

// The directory of a path: the part before its last `\`, and nothing where there is none.
pub fn parent_of(path: &str) -> &str
    ensures { result.now ≡ parent_of path.now }
{
    match path.rsplit_once('\\') {
        Some((directory, _)) => return directory,
        None => return "",
    }
}
