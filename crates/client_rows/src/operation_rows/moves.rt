// What changes of an operation, and its price with it.
ghost use Rattle.std.specs.Prelude.{◌≡◌, ℕ, ◌<◌, ◌≤◌, Bool, true, false, List, length, slice_set, is_some};
ghost use Rattle.base_lists.specs.watch_lists.Listed.{watches};
ghost use Rattle.client_rows.specs.operation_rows.Rows.{row_at, stands, owner};
ghost use Rattle.client_rows.specs.operation_rows.Holding.{IsSafe};
ghost use Rattle.client_rows.specs.operation_rows.Choosing.{RowCounts, price_of};
ghost use Rattle.client_rows.specs.operation_rows.Moves.{IsSettled, KeepsPlace, StandsRows};

use crate::operation_rows::row::Row;
use base_lists::{NEVER, Prices, Watchers};

/// What an operation costs now, or a price that nothing pays.
pub fn price(row: &Row, watched: u32) -> u8
    ensures { result ≡ price_of row.now.unsettled (is_some row.now.outstanding_on) watched row.now.cost }
{
    if row.unsettled && row.outstanding_on.is_none() && watched == 0 {
        row.cost
    } else {
        NEVER
    }
}

/// An operation goes out, comes back with its channel, or costs more or less: all but its place and whether it is settled may
/// change.
pub fn change(rows: &mut [Row], prices: &mut Prices, watchers: &Watchers, index: usize, row: Row)
    requires within { index < length rows.old }
    requires counts { RowCounts rows.old prices.old watchers.now }
    requires keeps { KeepsPlace (row_at rows.old index) row }
    ensures row { rows.new ≡ slice_set rows.old index row }
    ensures counts { RowCounts rows.new prices.new watchers.now }
    ensures safe { (holders : List ℕ) → IsSafe rows.old holders → IsSafe rows.new holders }
    ensures stands { (holds : ℕ → ℕ → Bool) (fills : ℕ → Bool) (holders : List ℕ)
        → StandsRows holds fills rows.old holders prices.old watchers.now
        → StandsRows holds fills rows.new holders prices.new watchers.now }
{
    let price = price(&row, watchers.watched(index));
    rows[index] = row;
    prices.set(index, price);
}

/// Lets all that wait for an operation go.
fn wake(rows: &[Row], prices: &mut Prices, watchers: &mut Watchers, index: usize)
    requires counts { RowCounts rows.now prices.old watchers.old }
    requires within { index < length rows.now }
    requires above { 0 < index }
    ensures counts { RowCounts rows.now prices.new watchers.new }
    ensures none { (g : ℕ) → watches watchers.new g ≡ index → ⊥ }
    ensures stands { (holds : ℕ → ℕ → Bool) (fills : ℕ → Bool) (holders : List ℕ)
        → StandsRows holds fills rows.now holders prices.old watchers.old
        → StandsRows holds fills rows.now holders prices.new watchers.new }
{
    let mut below = rows.len();
    while let Some(at) = watchers.release(index) {
        below = at;
        let price = price(&rows[at], 0);
        prices.set(at, price);
    }
}

/// An operation settles that waits for nothing: what waits for it is to be looked at again.
pub fn settle(
    rows: &mut [Row],
    prices: &mut Prices,
    watchers: &mut Watchers,
    index: usize,
    firm: bool,
)
    requires counts { RowCounts rows.old prices.old watchers.old }
    requires within { index < length rows.old }
    requires above { 0 < index }
    ensures row { rows.new ≡ slice_set rows.old index (record (row_at rows.old index) { unsettled = false; firm = firm }) }
    ensures counts { RowCounts rows.new prices.new watchers.new }
    ensures safe { (holders : List ℕ) → IsSafe rows.old holders → IsSafe rows.new holders }
    ensures stands { (holds : ℕ → ℕ → Bool) (fills : ℕ → Bool) (holders : List ℕ)
        → StandsRows holds fills rows.old holders prices.old watchers.old → IsSettled holds rows.old index
        → StandsRows holds fills rows.new holders prices.new watchers.new }
{
    // What waited is let go without a look: the next search finds whether something else holds it up.
    wake(rows, prices, watchers, index);
    rows[index] = Row {
        unsettled: false,
        firm,
        ..rows[index]
    };
    prices.set(index, NEVER);
}
