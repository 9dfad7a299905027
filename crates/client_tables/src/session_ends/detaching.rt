// What operations cost without a session.
ghost use Rattle.std.specs.Prelude.{◌≡◌, ℕ, ◌<◌, List};
ghost use Rattle.spec_exchange.specs.Client.{Client};
ghost use Rattle.client_rows.specs.operation_rows.Rows.{stands};
ghost use Rattle.client_rows.specs.operation_rows.Holding.{IsSafe};
ghost use Rattle.client_rows.specs.operation_rows.Choosing.{RowCounts};
ghost use Rattle.client_rows.specs.Shown.{ShowsRows};
ghost use Rattle.client_tables.specs.cuts.Cutting.{end_all};
ghost use Rattle.client_tables.specs.settling.Shown.{AreSettledBelow, GoesSettled};
ghost use Rattle.client_tables.specs.session_ends.Ending.{ending};

use crate::costs::price_one;
use base_lists::{Prices, Watchers};
use client_rows::Row;

/// Without a session each operation costs what a request to attach does, one credit (MS-SMB2 3.2.4.4), but for a create. Those
/// below one are settled.
pub fn detach_from(rows: &mut [Row], prices: &mut Prices, watchers: &Watchers, from: usize)
    requires above { 0 < from }
    requires counts { RowCounts rows.old prices.old watchers.now }
    requires below { AreSettledBelow rows.old from }
    ensures settles { GoesSettled rows.old rows.new }
    ensures stands { (g : ℕ) → stands rows.new g ≡ stands rows.old g }
    ensures counts { RowCounts rows.new prices.new watchers.now }
    ensures safe { (holders : List ℕ) → IsSafe rows.old holders → IsSafe rows.new holders }
    ensures shown { (c : Client) (holders : List ℕ) → ShowsRows rows.old holders prices.old watchers.now (end_all c)
        → ShowsRows rows.new holders prices.new watchers.now (ending c) }
{
    let mut at = from;
    while at < rows.len() {
        price_one(rows, prices, watchers, at, false);
        at += 1;
    }
}
