// One operation settles.
ghost use Rattle.std.specs.Prelude.{◌≡◌, ℕ, ◌-◌, ◌<◌, false, List, length, slice_set};
ghost use Rattle.spec_exchange.specs.Client.{Client};
ghost use Rattle.spec_exchange.specs.Operations.{is_firm};
ghost use Rattle.spec_exchange.specs.Table.{put};
ghost use Rattle.law_client.specs.table.Columns.{IsClientFirst, ops_of, standing_of};
ghost use Rattle.client_values.specs.outcomes.Meaning.{outcome_of};
ghost use Rattle.client_rows.specs.Shown.{ShowsRows};
ghost use Rattle.client_rows.specs.operation_rows.Rows.{row_at, stands};
ghost use Rattle.client_rows.specs.operation_rows.Holding.{IsSafe};
ghost use Rattle.client_rows.specs.operation_rows.Choosing.{RowCounts};
ghost use Rattle.client_values.specs.declared.operations.values.OpKind.{OpKind};
ghost use Rattle.client_tables.specs.settling.Shown.{GoesSettled, ShowsValues};

use base_lists::{Prices, Watchers};
use client_rows::{Row, settle_one};
use client_values::Outcome;

/// An operation that waits for nothing settles, and how. When one settles is this project's.
pub fn settle_as(
    rows: &mut [Row],
    prices: &mut Prices,
    watchers: &mut Watchers,
    settled: &mut [Outcome],
    index: usize,
    outcome: Outcome,
)
    requires above { 0 < index }
    requires within { index < length rows.old }
    requires counted { length settled.old ≡ length rows.old - 1 }
    requires counts { RowCounts rows.old prices.old watchers.old }
    ensures row { rows.new ≡ slice_set rows.old index (record (row_at rows.old index) {
      unsettled = false;
      firm = is_firm (outcome_of outcome);
    }) }
    ensures value { settled.new ≡ slice_set settled.old (index - 1) outcome }
    ensures counted { length settled.new ≡ length settled.old }
    ensures here { stands rows.new index ≡ false }
    ensures settles { GoesSettled rows.old rows.new }
    ensures counts { RowCounts rows.new prices.new watchers.new }
    ensures safe { (holders : List ℕ) → IsSafe rows.old holders → IsSafe rows.new holders }
    ensures shown { (c : Client) (holders : List ℕ) → IsSafe rows.old holders → ShowsRows rows.old holders prices.old watchers.old c
        → IsClientFirst (ops_of c) (standing_of c) index
        → ShowsRows rows.new holders prices.new watchers.new (record c { outcome = put c.outcome index (outcome_of outcome) }) }
    ensures values { (c : Client) (ops : List OpKind) → ShowsValues rows.old ops settled.old c.taken c.op c.outcome
        → ShowsValues rows.new ops settled.new c.taken c.op (put c.outcome index (outcome_of outcome)) }
{
    let firm = outcome.is_firm();
    settled[index - 1] = outcome;
    settle_one(rows, prices, watchers, index, firm);
}
