//! Listings of directories: `.`, `..`, then names in byte order of their ASCII upper case (MS-FSA 2.1.5.6.3).
ghost use Rattle.std.specs.Prelude.{◌≡◌, ◌+◌, ◌*◌, ◌≤◌, ◌==◌, nat_eq, not, ◌&&◌, ℕ, List, [], ◌∷◌, Bool, true, false, if◌then◌else◌};
ghost use Rattle.std.specs.Prelude.{◌<◌, ◌++◌, length, take, drop, Option, None, Some, IfSome, OnOk, IfOk, MatchOption};
ghost use Rattle.std.specs.Prelude.{MatchResult, option_map, map};
ghost use Rattle.std.specs.Str.{IsCharBoundary};
ghost use Rattle.std.specs.String.{string_bytes, string_cmp};
ghost use Rattle.std.specs.Map.{keys_of};
ghost use Rattle.std.specs.List.Sorted.{IsStrictlySortedBy};
ghost use Rattle.std.specs.HashMap.{get};
ghost use Rattle.std.specs.BTreeMap.{get_by_text};
ghost use Rattle.spec_exchange.specs.State.{Server, Named};
ghost use Rattle.spec_exchange.specs.Table.{is_filled};
ghost use Rattle.spec_exchange.specs.Texts.{leaf_of, utf16_length};
ghost use Rattle.spec_exchange.specs.Files.{exists, is_directory, path_of, info_of, find};
ghost use Rattle.spec_exchange.specs.Texts as texts;
ghost use Rattle.spec_exchange.specs.Listing.{accepts, is_behind, rank, entry_part, next_multiple, all_named, children};
ghost use Rattle.spec_exchange.specs.Listing.{wanted, fitting, one_or_all, parent_file};
ghost use Rattle.store_files.specs.file_tree.Shown.{ShowsFiles, FileRowFound, model_info, folded};
ghost use Rattle.store_files.specs.file_tree.Keys.{key_le, has_slash};
ghost use Rattle.store_files.specs.file_tree.Listed.{model_named, listing_given, any_at, is_listing_full, stage_behind};
ghost use Rattle.store_files.specs.file_tree.Listed.{ListingEnds, EndsIn};
ghost use Rattle.store_files.specs.file_tree.Listed.{with_accepted, listing_accepted, with_dot, with_dots, listing_refusal, Explains};
ghost use Rattle.store_files.specs.file_tree.Listed.{start_key, from_key, kids, kids_left, AreListingRows, IsRowNamed, fitting_of};
ghost use Rattle.store_files.specs.declared.file_tree.row.Row.{Row};
ghost use Rattle.store_files.specs.declared.file_tree.list.Stage.TheVariants.{Nothing};

use crate::file_tree::error::StoreError;
use crate::file_tree::find::parent_of;
use crate::file_tree::index::starts;
use crate::file_tree::row::{Info, Row, info_of};
use crate::file_tree::tree::Tree;
use crate::names::{accepts, key_of, units};
use std::alloc::{AllocError, Global};
use std::collections::{BTreeMap, HashMap};
use wire_bytes::Text;

const NO_SUCH_FILE: u32 = 0xc000_000f;

/// A name of a directory, with what is known of it.
#[derive(Drop)]
pub struct Entry {
    pub name: Text,
    pub info: Info,
}

/// What a listing gives: the entries that fit, and whether there is any at all.
#[derive(Drop)]
pub struct Listed {
    pub entries: Vec<Entry>,
    pub any: bool,
}

// What is asked for: names that the pattern accepts, one of them or as many as fit. Without a class all fit.
#[derive(Clone, Copy)]
pub struct Asked<'a> {
    pub pattern: &'a [u8],
    pub class: Option<u8>,
    pub room: u64,
    pub single: bool,
}

// What a listing found so far: no name that it takes, some, or as many as fit.
#[derive(Clone, Copy, PartialEq, Eq)]
pub enum Stage {
    Nothing,
    More,
    Full,
}

// What it took, where that ends, and how far it came.
#[derive(Drop)]
pub struct Taken {
    pub entries: Vec<Entry>,
    pub at: u64,
    pub stage: Stage,
    pub alloc: Global,
}

impl Tree {
    /// The entries of a directory that the pattern accepts, in their order. NO_SUCH_FILE where there is none.
    pub fn list(&self, directory: u64, pattern: &str) -> Result<Vec<Entry>, StoreError>
        ensures { MatchResult result
            (λ v. (s : Server) → ShowsFiles self.now s → exists s directory ≡ true
            → (listing_refusal s directory pattern.now ≡ None)
            × (map model_named v.items ≡ wanted None pattern.now (all_named s directory)))
            (λ e. (s : Server) → ShowsFiles self.now s → exists s directory ≡ true → Explains e (listing_refusal s directory pattern.now)) }
    {
        let asked = Asked {
            pattern: pattern.as_bytes(),
            class: None,
            room: 0,
            single: false,
        };
        match self.take_named(directory, None, asked) {
            Ok(taken) => {
                if is_any(taken.stage) {
                    return Ok(taken.entries);
                }
                return Err(StoreError::Status(NO_SUCH_FILE));
            }
            Err(_) => return Err(StoreError::Memory),
        }
    }

    /// The same from behind a name on, one entry or as many as fit into `room` bytes in the information class. It
    /// sorts nothing: it begins at the name, and looks up once more for each name below which something stands.
    pub fn list_from(
        &self,
        directory: u64,
        pattern: &str,
        last: Option<&str>,
        class: u8,
        room: u32,
        single: bool,
    ) -> Result<Listed, AllocError>
        ensures { IfOk result (λ l. (s : Server) → ShowsFiles self.now s → exists s directory ≡ true
            → (map model_named l.entries.items
            ≡ one_or_all single
            (fitting class room 0
            (wanted (option_map (λ t. t.now) last.entry) pattern.now (all_named s directory))))
            × (l.any ≡ is_filled (wanted (option_map (λ t. t.now) last.entry) pattern.now (all_named s directory)))) }
    {
        let asked = Asked {
            pattern: pattern.as_bytes(),
            class: Some(class),
            room: room as u64,
            single,
        };
        let taken = self.take_named(directory, last, asked)?;
        let any = is_any(taken.stage);
        Ok(Listed {
            entries: taken.entries,
            any,
        })
    }

    // Takes `.`, `..` and the names of a directory, from behind a name on.
    fn take_named(
        &self,
        directory: u64,
        last: Option<&str>,
        asked: Asked<'_>,
    ) -> Result<Taken, AllocError>
        ensures { IfOk result (λ t. (s : Server) → ShowsFiles self.now s → exists s directory ≡ true
            → (listing_given asked.entry t []
            ≡ one_or_all asked.entry.single
            (fitting_of asked.entry.class asked.entry.room 0
            (wanted (option_map (λ t. t.now) last.entry) asked.entry.pattern.now (all_named s directory))))
            × (any_at t.stage []
            ≡ is_filled (wanted (option_map (λ t. t.now) last.entry) asked.entry.pattern.now
            (all_named s directory)))) }
    {
        match self.row(directory) {
            Some(row) => return self.take_row(directory, row, last, asked),
            None => return Ok(nothing_taken(self.alloc)),
        }
    }

    fn take_row(
        &self,
        directory: u64,
        row: &Row,
        last: Option<&str>,
        asked: Asked<'_>,
    ) -> Result<Taken, AllocError>
        ensures { IfOk result (λ t. (s : Server) → ShowsFiles self.now s → FileRowFound (Some row.now) s directory
            → (listing_given asked.entry t []
            ≡ one_or_all asked.entry.single
            (fitting_of asked.entry.class asked.entry.room 0
            (wanted (option_map (λ t. t.now) last.entry) asked.entry.pattern.now (all_named s directory))))
            × (any_at t.stage []
            ≡ is_filled (wanted (option_map (λ t. t.now) last.entry) asked.entry.pattern.now
            (all_named s directory)))) }
    {
        let mut taken = nothing_taken(self.alloc);
        take_dot(directory, row, last, asked, &mut taken)?;
        self.take_dots(row, last, asked, &mut taken)?;
        self.take_children(row, last, asked, &mut taken)?;
        Ok(taken)
    }

    // The entry of the parent, where it isn't passed. The root is its own.
    fn take_dots(
        &self,
        row: &Row,
        last: Option<&str>,
        asked: Asked<'_>,
        taken: &mut Taken,
    ) -> Result<(), AllocError>
        ensures { OnOk result ((s : Server) (f : ℕ) → ShowsFiles self.now s → FileRowFound (Some row.now) s f → (ns : List Named)
            → (listing_given asked.entry taken.new ns
            ≡ listing_given asked.entry taken.old (with_dots (option_map (λ t. t.now) last.entry) asked.entry.pattern.now s
            f ns))
            × (any_at taken.new.stage ns
            ≡ any_at taken.old.stage (with_dots (option_map (λ t. t.now) last.entry) asked.entry.pattern.now s f
            ns))) }
    {
        if is_behind_dot(last) {
            let parent = self.parent_number(row);
            let info = self.info(parent);
            taken.offer(asked, "..", info)?;
            return Ok(());
        }
        Ok(())
    }

    // The number of the directory in which a file or directory stands.
    fn parent_number(&self, row: &Row) -> u64
        ensures { (s : Server) → ShowsFiles self.now s → result ≡ parent_file (find s (texts.parent_of row.now.path)) }
    {
        match self.find(parent_of(row.path.as_str())) {
            Some(file) => return file,
            None => return 0,
        }
    }

    fn take_children(
        &self,
        row: &Row,
        last: Option<&str>,
        asked: Asked<'_>,
        taken: &mut Taken,
    ) -> Result<(), AllocError>
        ensures { OnOk result ((s : Server) (f : ℕ) → ShowsFiles self.now s → FileRowFound (Some row.now) s f
            → (listing_given asked.entry taken.new []
            ≡ listing_given asked.entry taken.old
            (wanted (option_map (λ t. t.now) last.entry) asked.entry.pattern.now
            (children s s.entries (path_of s f))))
            × (any_at taken.new.stage []
            ≡ any_at taken.old.stage
            (wanted (option_map (λ t. t.now) last.entry) asked.entry.pattern.now
            (children s s.entries (path_of s f))))) }
    {
        if row.directory {
            let start = start_of(self.alloc, row, last)?;
            take_from(&self.paths, &self.rows, &row.below, start, asked, taken)?;
            return Ok(());
        }
        Ok(())
    }
}

// Nothing so far.
fn nothing_taken(alloc: Global) -> Taken
    ensures { (result.entries.items ≡ []) × (result.at ≡ 0) × (result.stage ≡ Nothing) }
{
    Taken {
        entries: Vec::new(alloc),
        at: 0,
        stage: Stage::Nothing,
        alloc,
    }
}

// The key from which a listing goes on.
fn start_of(alloc: Global, row: &Row, last: Option<&str>) -> Result<String, AllocError>
    ensures { IfOk result (λ k. string_bytes k ≡ start_key (string_bytes row.now.below) (option_map (λ t. t.now) last.entry)) }
{
    match last {
        Some(name) => {
            let start = start_behind(alloc, &row.below, name)?;
            return Ok(start);
        }
        None => {
            let start = row.below.clone()?;
            return Ok(start);
        }
    }
}

fn start_behind(alloc: Global, front: &String, name: &str) -> Result<String, AllocError>
    ensures { IfOk result (λ k. string_bytes k ≡ start_key (string_bytes front.now) (Some name.now)) }
{
    let mut start = front.clone()?;
    if is_name(name) {
        let key = key_of(alloc, name)?;
        start.push_str(key.as_str())?;
        // No name has a zero byte, so this is the least key above the name's own.
        start.push('\0')?;
        return Ok(start);
    }
    Ok(start)
}

// Whether this is a name of an entry, and not `.` or `..`.
fn is_name(name: &str) -> bool
    ensures { result ≡ (rank name.now == 2) }
{
    name != "." && name != ".."
}

// Takes the names of a directory from a key on. What stands below one of them is passed by a look-up.
fn take_from(
    paths: &BTreeMap<String, u64>,
    rows: &HashMap<u64, Row>,
    front: &String,
    start: String,
    asked: Asked<'_>,
    taken: &mut Taken,
) -> Result<(), AllocError>
    ensures given { OnOk result ((names : ℕ → Named) → AreListingRows (λ q. get_by_text paths.now q) (get nat_eq rows.now) names
        → key_le (string_bytes front.now) (string_bytes start) ≡ true
        → (listing_given asked.entry taken.new []
        ≡ listing_given asked.entry taken.old
        (listing_accepted asked.entry.pattern.now
        (kids names (string_bytes front.now) (from_key (string_bytes start) paths.now.entries))))
        × (any_at taken.new.stage []
        ≡ any_at taken.old.stage
        (listing_accepted asked.entry.pattern.now
        (kids names (string_bytes front.now) (from_key (string_bytes start) paths.now.entries))))) }
    ensures order { OnOk result (IsStrictlySortedBy string_cmp (keys_of paths.now.entries)) }
{
    let mut from = start;
    loop {
        let next = take_run(paths, rows, front, &from, asked, taken)?;
        match next {
            Some(key) => from = key,
            None => return Ok(()),
        }
    }
}

// Takes names from a key on, up to one below which something stands; it answers the key behind that.
fn take_run(
    paths: &BTreeMap<String, u64>,
    rows: &HashMap<u64, Row>,
    front: &String,
    start: &String,
    asked: Asked<'_>,
    taken: &mut Taken,
) -> Result<Option<String>, AllocError>
    ensures given { IfOk result (λ next. (names : ℕ → Named) → AreListingRows (λ q. get_by_text paths.now q)
        (get nat_eq rows.now) names
        → key_le (string_bytes front.now) (string_bytes start.now) ≡ true
        → (listing_given asked.entry taken.new (listing_accepted asked.entry.pattern.now (kids_left names (string_bytes front.now) next paths.now.entries))
        ≡ listing_given asked.entry taken.old
        (listing_accepted asked.entry.pattern.now
        (kids names (string_bytes front.now) (from_key (string_bytes start.now) paths.now.entries))))
        × (any_at taken.new.stage (listing_accepted asked.entry.pattern.now (kids_left names (string_bytes front.now) next paths.now.entries))
        ≡ any_at taken.old.stage
        (listing_accepted asked.entry.pattern.now
        (kids names (string_bytes front.now) (from_key (string_bytes start.now) paths.now.entries))))) }
    ensures order { OnOk result (IsStrictlySortedBy string_cmp (keys_of paths.now.entries)) }
    ensures behind { IfOk result (λ next. IfSome next (λ k. key_le (string_bytes front.now) (string_bytes k) ≡ true)) }
    ensures fewer { IfOk result
        (λ next. IfSome next
        (λ k. length (from_key (string_bytes k) paths.now.entries) < length
        (from_key (string_bytes start.now) paths.now.entries))) }
{
    for (key, file) in paths.range(start..) {
        if is_full(taken.stage) {
            return Ok(None);
        }
        if !starts(key.as_str(), front.as_str()) {
            return Ok(None);
        }
        match directory_below(key, front) {
            Some(directory) => {
                let next = behind(taken.alloc, directory)?;
                return Ok(Some(next));
            }
            None => take_child(rows, *file, asked, taken)?,
        }
    }
    Ok(None)
}

// The first key behind all that stands below a directory.
fn behind(alloc: Global, directory: &str) -> Result<String, AllocError>
    ensures { IfOk result (λ k. string_bytes k ≡ directory.now ++ 93 ∷ []) }
{
    let mut key = String::from_str(alloc, directory)?;
    // In byte order `]` follows `\`, so this key is above all that begin with the directory and `\`.
    key.push(']')?;
    Ok(key)
}

// The directory of a front below which the key stands. A name of the front stands below none.
fn directory_below<'a>(key: &'a String, front: &String) -> Option<&'a str>
    ensures { MatchOption result (has_slash (drop (length (string_bytes front.now)) (string_bytes key.now)) ≡ false)
        (λ d. (length (string_bytes front.now) ≤ length d.now) × ((rest : List ℕ) × (string_bytes key.now ≡ d.now ++ 92 ∷ rest))) }
{
    directory_in(key.as_str(), front.len())
}

// The key up to its first `\` behind so many bytes. Without one it is a name's.
fn directory_in(key: &str, front: usize) -> Option<&str>
    ensures { MatchOption result (has_slash (drop front key.now) ≡ false) (λ d. (front ≤ length d.now)
        × ((rest : List ℕ) × (key.now ≡ d.now ++ 92 ∷ rest))) }
{
    let bytes = key.as_bytes();
    for i in front..bytes.len() {
        if bytes[i] == b'\\' {
            return Some(first_bytes(key, i));
        }
    }
    None
}

// So many bytes of a key.
fn first_bytes(key: &str, count: usize) -> &str
    ensures { IsCharBoundary key.now count → result.now ≡ take count key.now }
{
    if key.is_char_boundary(count) {
        return &key[..count];
    }
    ""
}

fn take_child(
    rows: &HashMap<u64, Row>,
    file: u64,
    asked: Asked<'_>,
    taken: &mut Taken,
) -> Result<(), AllocError>
    ensures { OnOk result ((n : Named) → IsRowNamed (get nat_eq rows.now file) file n → (ns : List Named)
        → (listing_given asked.entry taken.new ns ≡ listing_given asked.entry taken.old (with_accepted asked.entry.pattern.now n ns))
        × (any_at taken.new.stage ns ≡ any_at taken.old.stage (with_accepted asked.entry.pattern.now n ns))) }
{
    match rows.get(&file) {
        Some(row) => {
            taken.offer(asked, leaf_of(row.path.as_str()), info_of(file, row))?;
            return Ok(());
        }
        None => return Ok(()),
    }
}

/// The name of a path: the part behind its last `\`.
pub fn leaf_of(path: &str) -> &str
    ensures { result.now ≡ leaf_of path.now }
{
    match path.rsplit_once('\\') {
        Some((_, name)) => return name,
        None => return path,
    }
}

// The entry of the directory itself, where it isn't passed.
fn take_dot(
    directory: u64,
    row: &Row,
    last: Option<&str>,
    asked: Asked<'_>,
    taken: &mut Taken,
) -> Result<(), AllocError>
    ensures { OnOk result ((s : Server) → FileRowFound (Some row.now) s directory → (ns : List Named)
        → (listing_given asked.entry taken.new ns
        ≡ listing_given asked.entry taken.old (with_dot (option_map (λ t. t.now) last.entry) asked.entry.pattern.now s
        directory ns))
        × (any_at taken.new.stage ns
        ≡ any_at taken.old.stage (with_dot (option_map (λ t. t.now) last.entry) asked.entry.pattern.now s directory
        ns))) }
{
    match last {
        Some(_) => return Ok(()),
        None => {
            taken.offer(asked, ".", info_of(directory, row))?;
            return Ok(());
        }
    }
}

// Whether `..` stands behind the last name.
fn is_behind_dot(last: Option<&str>) -> bool
    ensures { result ≡ is_behind (option_map (λ t. t.now) last.entry) (46 ∷ 46 ∷ []) }
{
    match last {
        Some(name) => return name == ".",
        None => return true,
    }
}

#[tactic(auto, unfolding(spec_exchange::specs::Table::is_filled))]
fn is_any(stage: Stage) -> bool
    ensures { result ≡ any_at stage [] }
{
    match stage {
        Stage::Nothing => return false,
        Stage::More | Stage::Full => return true,
    }
}

fn is_full(stage: Stage) -> bool
    ensures { result ≡ is_listing_full stage }
{
    match stage {
        Stage::Full => return true,
        Stage::Nothing | Stage::More => return false,
    }
}

impl Taken {
    // One more entry, where the pattern accepts its name and it fits.
    fn offer(&mut self, asked: Asked<'_>, name: &str, info: Info) -> Result<(), AllocError>
        ensures { OnOk result ((ns : List Named)
            → (listing_given asked.entry self.new ns
            ≡ listing_given asked.entry self.old
            (with_accepted asked.entry.pattern.now (record { name = name.now; info = model_info info }) ns))
            × (any_at self.new.stage ns
            ≡ any_at self.old.stage
            (with_accepted asked.entry.pattern.now (record { name = name.now; info = model_info info }) ns))) }
    {
        if is_full(self.stage) {
            return Ok(());
        }
        let is_wanted = accepts(self.alloc, asked.pattern, name.as_bytes())?;
        if is_wanted {
            self.put(asked, name, info)?;
            return Ok(());
        }
        Ok(())
    }

    // One more entry, where it fits.
    fn put(&mut self, asked: Asked<'_>, name: &str, info: Info) -> Result<(), AllocError>
        requires { is_listing_full self.old.stage ≡ false }
        ensures given { OnOk result ((ns : List Named) → listing_given asked.entry self.new ns
            ≡ listing_given asked.entry self.old (record { name = name.now; info = model_info info } ∷ ns)) }
        ensures any { OnOk result ((ns : List Named) → any_at self.new.stage ns ≡ true) }
    {
        match end_behind(self.at, asked, name) {
            Some(end) => {
                let name = Text::from_str(self.alloc, name)?;
                self.entries.push(Entry { name, info })?;
                self.at = end;
                self.stage = stage_behind(asked.single);
                return Ok(());
            }
            None => {
                self.stage = Stage::Full;
                return Ok(());
            }
        }
    }
}

fn stage_behind(single: bool) -> Stage
    ensures { result ≡ stage_behind single }
{
    if single {
        return Stage::Full;
    }
    Stage::More
}

// Where an entry ends that begins at the next multiple of 8, if it fits.
fn end_behind(at: u64, asked: Asked<'_>, name: &str) -> Option<u64>
    ensures { ListingEnds result asked.entry.class asked.entry.room at name.now }
{
    match asked.class {
        Some(class) => return end_in(at, class, asked.room, name),
        None => return Some(at),
    }
}

fn end_in(at: u64, class: u8, room: u64, name: &str) -> Option<u64>
    ensures { EndsIn result (next_multiple at + (entry_part class + 2 * utf16_length name.now)) room }
{
    let begin = (at as u128 + 7) / 8 * 8;
    let size = entry_part(class) as u128 + 2 * units(name.as_bytes()) as u128;
    if begin + size > room as u128 {
        return None;
    }
    Some((begin + size) as u64)
}

// How many bytes an entry has beside its name (MS-FSCC 2.4).
#[tactic(auto, unfolding(spec_exchange::specs::Listing::entry_part))]
fn entry_part(class: u8) -> u64
    ensures is { result ≡ entry_part class }
    ensures few { result ≤ 104 }
{
    match class {
        1 => 64,
        2 => 68,
        3 => 94,
        12 => 12,
        37 => 104,
        _ => 80,
    }
}
