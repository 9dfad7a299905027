// What an operation was found to wait for at its submit, as a stretch of one list for all.
ghost use Rattle.std.specs.Prelude.{◌≡◌, ℕ, ◌+◌, ◌-◌, ◌<◌, ◌≤◌, true, false, length, slice_index};
ghost use Rattle.client_rows.specs.operation_rows.Rows.{row_at, stands};
ghost use Rattle.client_rows.specs.operation_rows.Listed.{IsListed, SameButEnd};

use crate::operation_rows::row::Row;

/// How many of a list are left, where the settled ones at its end are left out.
fn count_left(rows: &[Row], holders: &[u32]) -> usize
    requires { (i : ℕ) → i < length holders.now → slice_index holders.now i < length rows.now }
    ensures below { result ≤ length holders.now }
    ensures found { 0 < result → stands rows.now (slice_index holders.now (result - 1)) ≡ true }
    ensures settled { (i : ℕ) → result ≤ i → i < length holders.now → stands rows.now (slice_index holders.now i) ≡ false }
{
    let mut left = holders.len();
    while left > 0 {
        let holder = holders[left - 1] as usize;
        if rows[holder].unsettled {
            return left;
        }
        left -= 1;
    }
    0
}

/// One of those that an operation was found to wait for, if one isn't settled; else 0. The settled ones behind it are
/// forgotten.
pub fn listed_holder(rows: &mut [Row], holders: &[u32], index: usize) -> u32
    requires within { index < length rows.old }
    requires listed { IsListed rows.old holders.now index }
    ensures within { result < length rows.old }
    ensures found { 0 < result → stands rows.old result ≡ true }
    ensures is { 0 < result → slice_index holders.now ((row_at rows.new index).holders_end - 1) ≡ result }
    ensures inside { 0 < result → (row_at rows.old index).holders < (row_at rows.new index).holders_end }
    ensures none { result ≡ 0 → (row_at rows.new index).holders_end ≤ (row_at rows.old index).holders }
    ensures same { SameButEnd rows.old rows.new index }
    ensures least { (row_at rows.old index).holders ≤ (row_at rows.new index).holders_end }
    ensures fewer { (row_at rows.new index).holders_end ≤ (row_at rows.old index).holders_end }
    ensures settled { (i : ℕ) → (row_at rows.new index).holders_end ≤ i → i < (row_at rows.old index).holders_end
        → stands rows.old (slice_index holders.now i) ≡ false }
{
    let begin = rows[index].holders as usize;
    let end = rows[index].holders_end as usize;
    let left = count_left(rows, &holders[begin..end]);
    rows[index].holders_end = (begin + left) as u32;
    if left == 0 {
        0
    } else {
        holders[begin + left - 1]
    }
}
