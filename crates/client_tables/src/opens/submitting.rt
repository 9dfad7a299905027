// One operation more of an open: its row is taken, and the marks go on.
ghost use Rattle.std.specs.Prelude.{◌≡◌, ℕ, ◌+◌, ◌<◌, ◌≤◌, ◌^◌, length, ◌∷◌, [], ◌++◌, OnOk, OnErr};
ghost use Rattle.spec_exchange.specs.Table.{put};
ghost use Rattle.spec_exchange.specs.Operations.{Op};
ghost use Rattle.spec_exchange.specs.Client.{Client, take_op};
ghost use Rattle.client_values.specs.declared.operations.shapes.Kind.{Kind as Kinds};
ghost use Rattle.client_values.specs.operations.Waiting.{at_of, size_of};
ghost use Rattle.client_rows.specs.operation_rows.Choosing.{RowCounts};
ghost use Rattle.client_rows.specs.operation_rows.Holding.{IsSafe};
ghost use Rattle.base_lists.specs.range_index.Shown.{top};
ghost use Rattle.client_rows.specs.declared.open_marks.marks.Marks.{Marks as OpenMarks};
ghost use Rattle.client_rows.specs.open_marks.Marks.{AreMarksBelow, Heights, mark_of};
ghost use Rattle.client_rows.specs.Shown.{ShowsRows};
ghost use Rattle.client_tables.specs.opens.Opened.{AreTopped, IsOpenOn, ShowsOpen, placed_row};

use crate::opens::noting::{Stretch, note};
use crate::opens::opening::Open;
use crate::submits::add_one;
use base_lists::{Prices, Watchers};
use client_rows::{Marks, Row, make_room};
use client_values::{Kind, Shape};
use std::alloc::AllocError;

fn count_of(rows: &Vec<Row>) -> usize
    ensures { result ≡ length rows.now.items }
{
    rows.len()
}

/// An operation's row, with its part of the list and the links that its open's marks are.
fn placed(row: Row, stretch: &Stretch, opened: &Open) -> Row
    ensures { result ≡ placed_row row stretch.now.begin stretch.now.end opened.now.marks }
{
    Row {
        holders: stretch.begin,
        holders_end: stretch.end,
        lower: opened.marks.last,
        change: opened.marks.change,
        filled: opened.marks.filled,
        ..row
    }
}

/// An open's marks behind one operation more. Its last operation is that one, whatever the marks were.
fn marked(marks: &Marks, number: u32, kind: Kind, size: u64) -> Marks
    ensures highest { (o : ℕ → ℕ) (k : ℕ → Kinds) (sizes : ℕ → ℕ) (create : ℕ) → Heights o k sizes create number marks.now
        → o number ≡ create → k number ≡ kind → sizes number ≡ size → Heights o k sizes create (number + 1) result }
    ensures below { (n : ℕ) → AreMarksBelow marks.now n → number < n → AreMarksBelow result n }
    ensures last { result.last ≡ number }
{
    let marks = marks.behind(number, kind, size);
    Marks {
        last: number,
        ..marks
    }
}

/// Takes an operation of an open, whatever its kind. Where memory runs out the rows and the open show what they showed, and
/// nothing is listed. What waits for what is this project's.
pub fn take_on(
    rows: &mut Vec<Row>,
    holders: &mut Vec<u32>,
    prices: &mut Prices,
    watchers: &mut Watchers,
    opened: &mut Open,
    shape: &Shape,
    row: Row,
) -> Result<(), AllocError>
    requires counts { RowCounts rows.old.items prices.old watchers.old }
    requires few { length rows.old.items + 1 < 2 ^ 32 }
    requires close { opened.old.marks.close < length rows.old.items }
    requires mark { mark_of shape.now.kind opened.old.marks < length rows.old.items }
    ensures counts { RowCounts rows.new.items prices.new watchers.new }
    ensures row { OnOk result (rows.new.items
        ≡ rows.old.items ++ placed_row row (length holders.old.items) (length holders.new.items) opened.old.marks ∷ []) }
    ensures same { OnErr result (rows.new.items ≡ rows.old.items) }
    ensures unlisted { OnErr result (holders.new.items ≡ holders.old.items) }
    ensures below { OnOk result (AreMarksBelow opened.old.marks (length rows.old.items)
        → AreMarksBelow opened.new.marks (length rows.old.items + 1)) }
    ensures last { OnOk result (opened.new.marks.last ≡ length rows.old.items) }
    ensures marks { OnErr result (opened.new.marks ≡ opened.old.marks) }
    ensures safe { OnOk result ((c : Client) (op : Op) (create : ℕ) → IsSafe rows.old.items holders.old.items
        → ShowsRows rows.old.items holders.old.items prices.old watchers.old c → length rows.old.items ≡ c.taken + 1
        → IsOpenOn rows.old.items c op create (length rows.old.items) shape.now row
        → ShowsOpen rows.old.items (λ x. at_of (c.op x)) (λ x. size_of (c.op x)) create (length rows.old.items) opened.old.marks
        (top opened.old.written) (top opened.old.locked) → IsSafe rows.new.items holders.new.items) }
    ensures secure { OnOk result (IsSafe rows.old.items holders.old.items → 0 < length rows.old.items
        → row.create ≤ length rows.old.items → AreMarksBelow opened.old.marks (length rows.old.items)
        → AreTopped (top opened.old.written) (top opened.old.locked) (length rows.old.items) → IsSafe rows.new.items holders.new.items) }
    ensures topped { OnOk result (AreTopped (top opened.old.written) (top opened.old.locked) (length rows.old.items)
        → AreTopped (top opened.new.written) (top opened.new.locked) (length rows.old.items + 1)) }
    ensures tops { OnErr result ((n : ℕ) → AreTopped (top opened.old.written) (top opened.old.locked) n
        → AreTopped (top opened.new.written) (top opened.new.locked) n) }
    ensures shown { OnOk result ((c : Client) (op : Op) (create : ℕ) → IsSafe rows.old.items holders.old.items
        → ShowsRows rows.old.items holders.old.items prices.old watchers.old c → length rows.old.items ≡ c.taken + 1
        → IsOpenOn rows.old.items c op create (length rows.old.items) shape.now row
        → ShowsOpen rows.old.items (λ x. at_of (c.op x)) (λ x. size_of (c.op x)) create (length rows.old.items) opened.old.marks
        (top opened.old.written) (top opened.old.locked)
        → ShowsRows rows.new.items holders.new.items prices.new watchers.new (take_op c (length rows.old.items) op)) }
    ensures keeps { OnOk result ((c : Client) (op : Op) (create : ℕ) → IsSafe rows.old.items holders.old.items
        → ShowsRows rows.old.items holders.old.items prices.old watchers.old c → length rows.old.items ≡ c.taken + 1
        → IsOpenOn rows.old.items c op create (length rows.old.items) shape.now row
        → ShowsOpen rows.old.items (λ x. at_of (c.op x)) (λ x. size_of (c.op x)) create (length rows.old.items) opened.old.marks
        (top opened.old.written) (top opened.old.locked)
        → ShowsOpen rows.new.items (λ x. at_of (put c.op (length rows.old.items) op x))
        (λ x. size_of (put c.op (length rows.old.items) op x)) create (length rows.old.items + 1) opened.new.marks
        (top opened.new.written) (top opened.new.locked)) }
    ensures others { OnOk result ((c : Client) (op : Op) (other : ℕ) (m : OpenMarks) (written locked : ℕ → ℕ)
        → (row.create ≡ other → ⊥)
        → ShowsOpen rows.old.items (λ x. at_of (c.op x)) (λ x. size_of (c.op x)) other (length rows.old.items) m written locked
        → ShowsOpen rows.new.items (λ x. at_of (put c.op (length rows.old.items) op x))
        (λ x. size_of (put c.op (length rows.old.items) op x)) other (length rows.old.items + 1) m written locked) }
    ensures kept { OnErr result ((c : Client) → ShowsRows rows.old.items holders.old.items prices.old watchers.old c
        → ShowsRows rows.new.items holders.new.items prices.new watchers.new c) }
    ensures stays { OnErr result ((at size : ℕ → ℕ) (create n : ℕ)
        → ShowsOpen rows.old.items at size create n opened.old.marks (top opened.old.written) (top opened.old.locked)
        → ShowsOpen rows.new.items at size create n opened.new.marks (top opened.new.written) (top opened.new.locked)) }
{
    make_room(rows, prices, watchers)?;
    let count = count_of(rows);
    let number = count as u32;
    let stretch = note(rows, opened, shape, number, holders)?;
    let row = placed(row, &stretch, opened);
    add_one(rows, prices, watchers, row);
    opened.marks = marked(&opened.marks, number, shape.kind, shape.size);
    Ok(())
}
