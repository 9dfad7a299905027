// The steps of one operation: it goes out, or a request to attach goes out in its place; it is answered; it settles.
ghost use Rattle.std.specs.Prelude.{◌≡◌, ℕ, ◌<◌, Bool, false, List, length, slice_set, Option};
ghost use Rattle.spec_exchange.specs.Table.{put};
ghost use Rattle.spec_exchange.specs.Operations.{Outcome, is_firm, is_unsettled};
ghost use Rattle.spec_exchange.specs.Client.{Client, asked};
ghost use Rattle.spec_exchange.specs.Settling.{answered};
ghost use Rattle.law_client.specs.table.Columns.{IsClientFirst, ops_of, standing_of};
ghost use Rattle.client_rows.specs.operation_rows.Rows.{row_at};
ghost use Rattle.client_rows.specs.operation_rows.Holding.{IsSafe};
ghost use Rattle.client_rows.specs.operation_rows.Choosing.{RowCounts};
ghost use Rattle.client_rows.specs.operation_rows.Moves.{KeepsPlace};
ghost use Rattle.client_rows.specs.Shown.{KeepsRow, ShowsRows, ShowsSends};

use crate::operation_rows::{Row, change, settle};
use base_lists::{Prices, Watchers};

/// A row changes, but for its place, its cost and whether it is settled.
pub fn put_row(rows: &mut [Row], prices: &mut Prices, watchers: &Watchers, index: usize, row: Row)
    requires within { index < length rows.old }
    requires counts { RowCounts rows.old prices.old watchers.now }
    requires keeps { KeepsPlace (row_at rows.old index) row }
    requires firm { row.firm ≡ (row_at rows.old index).firm }
    requires cost { row.cost ≡ (row_at rows.old index).cost }
    requires charge { row.charge ≡ (row_at rows.old index).charge }
    ensures row { rows.new ≡ slice_set rows.old index row }
    ensures place { row.open ≡ (row_at rows.old index).open → KeepsRow rows.old rows.new index }
    ensures counts { RowCounts rows.new prices.new watchers.now }
    ensures safe { (holders : List ℕ) → IsSafe rows.old holders → IsSafe rows.new holders }
    ensures shown { (c : Client) (holders : List ℕ) (sent : ℕ → Bool) (out : ℕ → Option ℕ) (asks unanswered : ℕ → Bool)
        (sequence slot number : ℕ → ℕ) → ShowsRows rows.old holders prices.old watchers.now c
        → ShowsSends (slice_set rows.old index row) sent out asks unanswered sequence slot number
        → ShowsRows rows.new holders prices.new watchers.now (record c {
          sent = sent;
          outstanding_on = out;
          asks_attach = asks;
          unanswered = unanswered;
          sequence_of = sequence;
          slot_of = slot;
          number_of = number;
        }) }
{
    change(rows, prices, watchers, index, row);
}

/// What was outstanding of an operation is answered.
pub fn answer(rows: &mut [Row], prices: &mut Prices, watchers: &Watchers, index: usize)
    requires within { index < length rows.old }
    requires counts { RowCounts rows.old prices.old watchers.now }
    ensures count { length rows.new ≡ length rows.old }
    ensures place { KeepsRow rows.old rows.new index }
    ensures counts { RowCounts rows.new prices.new watchers.now }
    ensures safe { (holders : List ℕ) → IsSafe rows.old holders → IsSafe rows.new holders }
    ensures shown { (c : Client) (holders : List ℕ) → ShowsRows rows.old holders prices.old watchers.now c
        → ShowsRows rows.new holders prices.new watchers.now (answered c index) }
{
    let row = Row {
        outstanding_on: None,
        ..rows[index]
    };
    put_row(rows, prices, watchers, index, row);
}

/// A request to attach its open goes out in an operation's place.
pub fn ask(rows: &mut [Row], prices: &mut Prices, watchers: &Watchers, index: usize, channel: u8)
    requires within { index < length rows.old }
    requires counts { RowCounts rows.old prices.old watchers.now }
    ensures count { length rows.new ≡ length rows.old }
    ensures place { KeepsRow rows.old rows.new index }
    ensures counts { RowCounts rows.new prices.new watchers.now }
    ensures safe { (holders : List ℕ) → IsSafe rows.old holders → IsSafe rows.new holders }
    ensures shown { (c : Client) (holders : List ℕ) → ShowsRows rows.old holders prices.old watchers.now c
        → ShowsRows rows.new holders prices.new watchers.now (asked c channel index) }
{
    let row = Row {
        asking: true,
        outstanding_on: Some(channel),
        ..rows[index]
    };
    put_row(rows, prices, watchers, index, row);
}

/// An operation settles that waits for nothing.
pub fn settle_one(
    rows: &mut [Row],
    prices: &mut Prices,
    watchers: &mut Watchers,
    index: usize,
    firm: bool,
)
    requires within { index < length rows.old }
    requires counts { RowCounts rows.old prices.old watchers.old }
    requires above { 0 < index }
    ensures row { rows.new ≡ slice_set rows.old index (record (row_at rows.old index) { unsettled = false; firm = firm }) }
    ensures count { length rows.new ≡ length rows.old }
    ensures counts { RowCounts rows.new prices.new watchers.new }
    ensures safe { (holders : List ℕ) → IsSafe rows.old holders → IsSafe rows.new holders }
    ensures shown { (c : Client) (holders : List ℕ) (o : Outcome) → IsSafe rows.old holders
        → ShowsRows rows.old holders prices.old watchers.old c → is_unsettled o ≡ false → is_firm o ≡ firm
        → IsClientFirst (ops_of c) (standing_of c) index
        → ShowsRows rows.new holders prices.new watchers.new (record c { outcome = put c.outcome index o }) }
{
    settle(rows, prices, watchers, index, firm);
}
