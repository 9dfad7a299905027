// What is outstanding of an operation goes with its channel.
ghost use Rattle.std.specs.Prelude.{◌≡◌, ℕ, ◌<◌, true, if◌then◌else◌, List, length, slice_set, None};
ghost use Rattle.spec_exchange.specs.Client.{Client};
ghost use Rattle.client_rows.specs.operation_rows.Rows.{row_at};
ghost use Rattle.client_rows.specs.operation_rows.Holding.{IsSafe};
ghost use Rattle.client_rows.specs.operation_rows.Choosing.{RowCounts};
ghost use Rattle.client_rows.specs.Shown.{ShowsRows, lost};

use crate::operation_rows::Row;
use crate::steps::put_row;
use base_lists::{Prices, Watchers};

/// Whether a copy of an operation is unanswered once what is outstanding of it is lost.
fn unanswered_behind(row: &Row) -> bool
    ensures { result ≡ (if row.now.asking then row.now.unanswered else true) }
{
    // A lost request to attach is no copy of the operation.
    if row.asking { row.unanswered } else { true }
}

/// What is outstanding of an operation is lost with its channel. It is asked of one of which something is: of another it would note
/// an unanswered copy.
pub fn lose(rows: &mut [Row], prices: &mut Prices, watchers: &Watchers, index: usize)
    requires within { index < length rows.old }
    requires counts { RowCounts rows.old prices.old watchers.now }
    ensures row { rows.new ≡ slice_set rows.old index (record (row_at rows.old index) {
      outstanding_on = None;
      unanswered = if (row_at rows.old index).asking then (row_at rows.old index).unanswered else true;
    }) }
    ensures count { length rows.new ≡ length rows.old }
    ensures counts { RowCounts rows.new prices.new watchers.now }
    ensures safe { (holders : List ℕ) → IsSafe rows.old holders → IsSafe rows.new holders }
    ensures shown { (c : Client) (holders : List ℕ) → ShowsRows rows.old holders prices.old watchers.now c
        → ShowsRows rows.new holders prices.new watchers.now (lost c index) }
{
    let unanswered = unanswered_behind(&rows[index]);
    let row = Row {
        outstanding_on: None,
        unanswered,
        ..rows[index]
    };
    put_row(rows, prices, watchers, index, row);
}
