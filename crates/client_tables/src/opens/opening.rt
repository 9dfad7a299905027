// What a client keeps of an open.
ghost use Rattle.std.specs.Prelude.{◌≡◌, ℕ, ◌<◌, List};
ghost use Rattle.client_rows.specs.declared.operation_rows.row.Row.{Row as Rows};
ghost use Rattle.client_rows.specs.operation_rows.Rows.{owner};
ghost use Rattle.base_lists.specs.range_index.Shown.{top};
ghost use Rattle.client_rows.specs.open_marks.Marks.{AreMarksBelow};
ghost use Rattle.client_tables.specs.opens.Opened.{AreTopped, ShowsOpen};

use base_lists::RangeIndex;
use client_rows::Marks;
use std::alloc::Global;

/// What a client keeps of an open for the operations to come: its highest operations by what later ones wait for, and which write
/// and which lock has each byte last.
#[derive(Drop)]
pub struct Open {
    pub marks: Marks,
    // By the number that covers each byte last: a write hides what it covers, so that all writes together list each
    // other a few times at most.
    pub written: RangeIndex,
    pub locked: RangeIndex,
}

impl Open {
    /// An open that has no operations yet. It takes no memory.
    pub fn new(alloc: Global) -> Open
        ensures shown { (rows : List Rows) (at size : ℕ → ℕ) (create n : ℕ) → ((h : ℕ) → h < n → owner rows h ≡ create → ⊥)
            → ShowsOpen rows at size create n result.marks (top result.written) (top result.locked) }
        ensures below { (n : ℕ) → 0 < n → AreMarksBelow result.marks n }
        ensures topped { (n : ℕ) → 0 < n → AreTopped (top result.written) (top result.locked) n }
    {
        let written = RangeIndex::new(alloc);
        let locked = RangeIndex::new(alloc);
        Open {
            marks: Marks {
                last: 0,
                change: 0,
                filled: 0,
                close: 0,
                end: 0,
                barrier: 0,
            },
            written,
            locked,
        }
    }
}
