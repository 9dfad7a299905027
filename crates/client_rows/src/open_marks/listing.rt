// What a new operation is found to wait for, but for its create and what it finds by its links.
ghost use Rattle.std.specs.Prelude.{◌≡◌, ℕ, ◌<◌, length, [], ◌∷◌, ◌++◌, OnOk, OnErr};
ghost use Rattle.base_lists.specs.range_index.Shown.{top};
ghost use Rattle.base_lists.specs.range_index.Tops.{RangeGoesOn, RangeLists};
ghost use Rattle.client_rows.specs.operation_rows.Rows.{stands};
ghost use Rattle.client_rows.specs.open_marks.Marks.{MarkAdds, ListsHolders, MarkTold, mark_of, top_of};

use crate::open_marks::marks::Marks;
use crate::operation_rows::Row;
use base_lists::RangeIndex;
use client_values::Kind;
use std::alloc::AllocError;

fn put_behind(holders: &mut Vec<u32>, mark: u32) -> Result<(), AllocError>
    ensures ok { OnOk result (holders.new.items ≡ holders.old.items ++ mark ∷ []) }
    ensures err { OnErr result (holders.new.items ≡ holders.old.items) }
{
    holders.push(mark)?;
    Ok(())
}

/// Lists an operation that is unsettled.
fn list_one(rows: &[Row], holders: &mut Vec<u32>, mark: u32) -> Result<(), AllocError>
    requires { mark < length rows.now }
    ensures adds { OnOk result (MarkAdds (λ l. (0 < l) × (l ≡ mark)) holders.old.items holders.new.items) }
    ensures told { OnOk result (MarkTold (stands rows.now) holders.new.items (length holders.old.items) (length holders.new.items) mark) }
    ensures goes { RangeGoesOn holders.old.items holders.new.items }
{
    if mark == 0 {
        return Ok(());
    }
    if !rows[mark as usize].unsettled {
        return Ok(());
    }
    put_behind(holders, mark)
}

/// Lists the last close.
fn list_close(rows: &[Row], holders: &mut Vec<u32>, marks: &Marks) -> Result<(), AllocError>
    requires { marks.now.close < length rows.now }
    ensures adds { OnOk result (MarkAdds (λ l. (0 < l) × (l ≡ marks.now.close)) holders.old.items holders.new.items) }
    ensures told { OnOk result (MarkTold (stands rows.now) holders.new.items (length holders.old.items) (length holders.new.items)
        marks.now.close) }
    ensures goes { RangeGoesOn holders.old.items holders.new.items }
{
    list_one(rows, holders, marks.close)
}

/// Lists the mark at which a kind looks.
fn list_mark(
    rows: &[Row],
    holders: &mut Vec<u32>,
    marks: &Marks,
    kind: Kind,
) -> Result<(), AllocError>
    requires { mark_of kind marks.now < length rows.now }
    ensures adds { OnOk result (MarkAdds (λ l. (0 < l) × (l ≡ mark_of kind marks.now)) holders.old.items holders.new.items) }
    ensures told { OnOk result (MarkTold (stands rows.now) holders.new.items (length holders.old.items) (length holders.new.items)
        (mark_of kind marks.now)) }
    ensures goes { RangeGoesOn holders.old.items holders.new.items }
{
    let mark = marks.mark_of(kind);
    list_one(rows, holders, mark)
}

/// Lists the last ones that have a byte of a range.
fn list_tops(
    kind: Kind,
    at: u64,
    size: u64,
    written: &RangeIndex,
    locked: &RangeIndex,
    holders: &mut Vec<u32>,
) -> Result<(), AllocError>
    ensures listed { OnOk result (RangeLists (λ x. top_of kind (top written.now) (top locked.now) x) at size holders.old.items
        holders.new.items) }
    ensures goes { RangeGoesOn holders.old.items holders.new.items }
{
    match kind {
        Kind::Write => written.tops_in(at, size, holders),
        Kind::Read => written.tops_in(at, size, holders),
        Kind::Lock => locked.tops_in(at, size, holders),
        Kind::Create => Ok(()),
        Kind::End => Ok(()),
        Kind::Change => Ok(()),
        Kind::Look => Ok(()),
        Kind::List => Ok(()),
        Kind::Close => Ok(()),
    }
}

/// Lists what a new operation on an open waits for. Where memory runs out some of it is listed.
pub fn list_holders(
    rows: &[Row],
    marks: &Marks,
    written: &RangeIndex,
    locked: &RangeIndex,
    kind: Kind,
    at: u64,
    size: u64,
    holders: &mut Vec<u32>,
) -> Result<(), AllocError>
    requires close { marks.now.close < length rows.now }
    requires mark { mark_of kind marks.now < length rows.now }
    ensures goes { RangeGoesOn holders.old.items holders.new.items }
    ensures listed { OnOk result (ListsHolders (stands rows.now) marks.now.close (mark_of kind marks.now)
        (λ x. top_of kind (top written.now) (top locked.now) x) at size holders.old.items holders.new.items) }
{
    list_close(rows, holders, marks)?;
    list_mark(rows, holders, marks, kind)?;
    list_tops(kind, at, size, written, locked, holders)
}
