//! What the opens of one file hold of it: their count, what they share and deny, and the ranges that they lock.
ghost use Rattle.std.specs.Prelude.{◌≡◌, ◌+◌, ◌<◌, ◌≤◌, ◌^◌, ◌==◌, ℕ, List, ◌∷◌, [], length, true, false, None, Some};
ghost use Rattle.std.specs.Prelude.{is_some, if◌then◌else◌, nat_eq};
ghost use Rattle.std.specs.HashMap.{get, spare};
ghost use Rattle.spec_exchange.specs.State as model;
ghost use Rattle.spec_exchange.specs.Ranges.{without_owner};
ghost use Rattle.store_opens.specs.declared.share_modes.lists.Open.{Open};
ghost use Rattle.store_opens.specs.open_index.Held.{HeldIs, HeldShown};

use crate::share_modes::{Open, Ranges, ShareCounts};
use std::alloc::Global;
use std::collections::HashMap;

/// What stands of one file.
#[derive(Drop)]
pub struct FileOpens {
    pub count: u64,
    pub shares: ShareCounts,
    pub ranges: Ranges,
}

impl FileOpens {
    fn new(alloc: Global) -> FileOpens
        ensures { HeldIs result [] [] }
    {
        FileOpens {
            count: 0,
            shares: ShareCounts::new(),
            ranges: Ranges::new(alloc),
        }
    }

    // One more open stands.
    fn add(&mut self, one: Open)
        ensures { (os : List Open) (ranges : List model.Range) → length os + 1 < 2 ^ 64 → HeldIs self.old os ranges
            → HeldIs self.new (one ∷ os) ranges }
    {
        self.count = self.count.saturating_add(1);
        self.shares.add(one);
    }

    // One of the opens leaves, with its ranges.
    #[tactic(auto, using(crate::proofs::open_index::HeldLemmas::owners_are))]
    fn remove(&mut self, one: Open)
        ensures { (os : List Open) (ranges : List model.Range) → HeldIs self.old (one ∷ os) ranges
            → HeldIs self.new os (without_owner one.id ranges) }
    {
        self.count = self.count.saturating_sub(1);
        self.shares.remove(one);
        self.ranges.release_all(one.id);
    }

    // Nothing stands of the file.
    fn is_empty(&self) -> bool
        ensures { (os : List Open) (ranges : List model.Range) → result ≡ true → HeldIs self.now os ranges → (os ≡ []) × (ranges ≡ []) }
    {
        self.count == 0 && self.ranges.as_slice().is_empty()
    }
}

// The row stands at a key.
fn put_held(files: &mut HashMap<u64, FileOpens>, file: u64, row: FileOpens)
    requires { 0 < spare files.old }
    ensures { (q : ℕ) → get nat_eq files.new q ≡ (if q == file then Some row else get nat_eq files.old q) }
{
    let _ = files.insert(file, row);
}

// Counts an open of a file that has one.
fn add_held(files: &mut HashMap<u64, FileOpens>, file: u64, one: Open)
    ensures here { (os : List Open) (ranges : List model.Range) → length os + 1 < 2 ^ 64 → is_some (get nat_eq files.old file) ≡ true
        → HeldShown (get nat_eq files.old file) os ranges → HeldShown (get nat_eq files.new file) (one ∷ os) ranges }
    ensures others { (q : ℕ) → (q == file) ≡ false → get nat_eq files.new q ≡ get nat_eq files.old q }
{
    if let Some(row) = files.get_mut(&file) {
        row.add(one);
    }
}

// Counts an open of a file that had none.
fn begin_held(files: &mut HashMap<u64, FileOpens>, alloc: Global, file: u64, one: Open)
    requires { 0 < spare files.old }
    ensures here { get nat_eq files.old file ≡ None → HeldShown (get nat_eq files.new file) (one ∷ []) [] }
    ensures others { (q : ℕ) → (q == file) ≡ false → get nat_eq files.new q ≡ get nat_eq files.old q }
{
    let mut row = FileOpens::new(alloc);
    row.add(one);
    put_held(files, file, row);
}

/// One more open stands of a file.
pub fn count_open(files: &mut HashMap<u64, FileOpens>, alloc: Global, file: u64, one: Open)
    requires { 0 < spare files.old }
    ensures here { (os : List Open) (ranges : List model.Range) → length os + 1 < 2 ^ 64
        → HeldShown (get nat_eq files.old file) os ranges → HeldShown (get nat_eq files.new file) (one ∷ os) ranges }
    ensures others { (q : ℕ) → (q == file) ≡ false → get nat_eq files.new q ≡ get nat_eq files.old q }
{
    if files.contains_key(&file) {
        add_held(files, file, one);
    } else {
        begin_held(files, alloc, file, one);
    }
}

// One open of a file leaves, with its ranges. Tells whether nothing stands of it then.
fn remove_held(files: &mut HashMap<u64, FileOpens>, file: u64, one: Open) -> bool
    ensures here { (os : List Open) (ranges : List model.Range) → HeldShown (get nat_eq files.old file) (one ∷ os) ranges
        → HeldShown (get nat_eq files.new file) os (without_owner one.id ranges) }
    ensures empty { (os : List Open) (ranges : List model.Range) → result ≡ true
        → HeldShown (get nat_eq files.new file) os ranges → (os ≡ []) × (ranges ≡ []) }
    ensures others { (q : ℕ) → (q == file) ≡ false → get nat_eq files.new q ≡ get nat_eq files.old q }
    ensures room { spare files.old ≤ spare files.new }
{
    match files.get_mut(&file) {
        Some(row) => {
            row.remove(one);
            row.is_empty()
        }
        None => false,
    }
}

// The file has no row.
fn forget_held(files: &mut HashMap<u64, FileOpens>, file: u64)
    ensures at { (q : ℕ) → get nat_eq files.new q ≡ (if q == file then None else get nat_eq files.old q) }
    ensures room { spare files.old ≤ spare files.new }
{
    let _ = files.remove(&file);
}

/// One open of a file leaves, with its ranges.
pub fn uncount_open(files: &mut HashMap<u64, FileOpens>, file: u64, one: Open)
    ensures here { (os : List Open) (ranges : List model.Range) → HeldShown (get nat_eq files.old file) (one ∷ os) ranges
        → HeldShown (get nat_eq files.new file) os (without_owner one.id ranges) }
    ensures others { (q : ℕ) → (q == file) ≡ false → get nat_eq files.new q ≡ get nat_eq files.old q }
    ensures room { spare files.old ≤ spare files.new }
{
    if remove_held(files, file, one) {
        forget_held(files, file);
    }
}
