//! Which of many numbered ranges of bytes covers a byte last.

ghost use Rattle.std.specs.Prelude.{◌≡◌, ℕ, ◌==◌, if◌then◌else◌, [], ◌∷◌, ◌++◌, OnOk, OnErr};
ghost use Rattle.base_lists.specs.range_index.Tops.{Covers, Forgets, RangeGoesOn, RangeLists};
ghost use Rattle.base_lists.specs.range_index.Shown.{top};

mod keys;

use keys::{
    Reach, divide, divide_behind, drop_behind, forget_key, has_key, key_behind, put, reach_over,
    top_of,
};
use std::alloc::{AllocError, Global};
use std::collections::BTreeMap;

/// Ranges of bytes below 2^64, by number. Where ranges overlap, a later one hides the earlier ones. Contracts speak of the
/// number that covers each byte last (`top`); 0 is none.
#[derive(Drop)]
pub struct RangeIndex {
    // What shows is kept, not each range: a write hides those that it covers, so all writes list each other a few
    // times at most.
    /// By a byte, the number of the range that covers it, and how far: one key for a range that no other follows.
    tops: BTreeMap<u64, Reach>,
}

/// Adds a number to a list, where it is one.
fn add(into: &mut Vec<u32>, number: u32) -> Result<(), AllocError>
    ensures ok { OnOk result (into.new.items ≡ if number == 0 then into.old.items else into.old.items ++ number ∷ []) }
    ensures err { OnErr result (into.new.items ≡ into.old.items) }
{
    if number != 0 {
        into.push(number)?;
    }
    Ok(())
}

impl RangeIndex {
    /// No ranges. It takes no memory.
    pub fn new(alloc: Global) -> RangeIndex
        ensures { (x : ℕ) → top result x ≡ 0 }
    {
        RangeIndex {
            tops: BTreeMap::new(alloc),
        }
    }

    /// The number of the last range that covers a byte, or 0.
    pub fn top_at(&self, at: u64) -> u32
        ensures { result ≡ top self.now at }
    {
        top_of(&self.tops, at)
    }

    /// Adds to a list the number of each range that covers a byte of this one last. Where memory runs out some are added.
    pub fn tops_in(&self, at: u64, size: u64, into: &mut Vec<u32>) -> Result<(), AllocError>
        ensures listed { OnOk result (RangeLists (top self.now) at size into.old.items into.new.items) }
        ensures goes { RangeGoesOn into.old.items into.new.items }
    {
        if size == 0 {
            return Ok(());
        }
        let last = at.saturating_add(size - 1);
        let mut number = top_of(&self.tops, at);
        let mut from = at;
        loop {
            add(into, number)?;
            let Some(key) = key_behind(&self.tops, from, last) else {
                return Ok(());
            };
            number = key.reach.number;
            from = key.at;
        }
    }

    /// A range covers its bytes, last of all. Where memory runs out nothing changes.
    pub fn cover(&mut self, at: u64, size: u64, number: u32) -> Result<(), AllocError>
        ensures ok { OnOk result (Covers (top self.old) (top self.new) at size number) }
        ensures err { OnErr result ((x : ℕ) → top self.new x ≡ top self.old x) }
    {
        if size == 0 {
            return Ok(());
        }
        // Both keys before anything changes: they leave each byte its number, and what follows takes no memory.
        divide(&mut self.tops, at)?;
        divide_behind(&mut self.tops, at, size)?;
        let last = at.saturating_add(size - 1);
        drop_behind(&mut self.tops, at, last);
        put(&mut self.tops, at, reach_over(size, number));
        Ok(())
    }

    /// A range leaves, from its first byte up to where a later one covers it; where a later one covers its first byte, it stays.
    /// The contract says only that each byte keeps its number or has lost this one.
    pub fn forget(&mut self, at: u64, number: u32)
        ensures { Forgets (top self.old) (top self.new) number }
    {
        if has_key(&self.tops, at, number) {
            forget_key(&mut self.tops, at);
        }
    }

    /// No range covers a byte any more.
    pub fn clear(&mut self)
        ensures { (x : ℕ) → top self.new x ≡ 0 }
    {
        self.tops.clear();
    }
}
