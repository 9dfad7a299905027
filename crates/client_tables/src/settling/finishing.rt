// No session can be had: all that is unsettled is given up.
ghost use Rattle.std.specs.Prelude.{◌≡◌, ℕ, ◌+◌, ◌-◌, ◌<◌, List, length};
ghost use Rattle.spec_exchange.specs.Client.{Client, finish};
ghost use Rattle.client_values.specs.outcomes.Meaning.{why_of};
ghost use Rattle.client_rows.specs.Shown.{ShowsRows};
ghost use Rattle.client_rows.specs.operation_rows.Holding.{IsSafe};
ghost use Rattle.client_rows.specs.operation_rows.Choosing.{RowCounts};
ghost use Rattle.client_values.specs.declared.operations.values.OpKind.{OpKind};
ghost use Rattle.client_tables.specs.settling.GivenUp.{finished_below};
ghost use Rattle.client_tables.specs.settling.Shown.{AreSettledBelow, GoesSettled, ShowsValues};

use crate::settling::settling::settle_as;
use base_lists::{Prices, Watchers};
use client_rows::Row;
use client_values::{Outcome, Why};

/// An operation that is unsettled is given up; all below it are settled.
fn give_up(
    rows: &mut [Row],
    prices: &mut Prices,
    watchers: &mut Watchers,
    settled: &mut [Outcome],
    index: usize,
    why: Why,
)
    requires above { 0 < index }
    requires within { index < length rows.old }
    requires counted { length settled.old ≡ length rows.old - 1 }
    requires counts { RowCounts rows.old prices.old watchers.old }
    requires below { AreSettledBelow rows.old index }
    ensures counted { length settled.new ≡ length settled.old }
    ensures settles { GoesSettled rows.old rows.new }
    ensures counts { RowCounts rows.new prices.new watchers.new }
    ensures safe { (holders : List ℕ) → IsSafe rows.old holders → IsSafe rows.new holders }
    ensures below { AreSettledBelow rows.new (index + 1) }
    ensures shown { (c : Client) (holders : List ℕ) → IsSafe rows.old holders
        → ShowsRows rows.old holders prices.old watchers.old (finished_below c (why_of why) index)
        → ShowsRows rows.new holders prices.new watchers.new (finished_below c (why_of why) (index + 1)) }
    ensures values { (c : Client) (ops : List OpKind)
        → ShowsValues rows.old ops settled.old c.taken c.op (finished_below c (why_of why) index).outcome
        → ShowsValues rows.new ops settled.new c.taken c.op (finished_below c (why_of why) (index + 1)).outcome }
{
    if rows[index].unsettled {
        settle_as(
            rows,
            prices,
            watchers,
            settled,
            index,
            Outcome::Unknown(why),
        );
    }
}

/// All from one on that are unsettled are given up; those below it are settled. So no operation is left. Giving up is this
/// project's.
pub fn give_up_from(
    rows: &mut [Row],
    prices: &mut Prices,
    watchers: &mut Watchers,
    settled: &mut [Outcome],
    from: usize,
    why: Why,
)
    requires above { 0 < from }
    requires counted { length settled.old ≡ length rows.old - 1 }
    requires counts { RowCounts rows.old prices.old watchers.old }
    requires below { AreSettledBelow rows.old from }
    ensures counted { length settled.new ≡ length settled.old }
    ensures settles { GoesSettled rows.old rows.new }
    ensures counts { RowCounts rows.new prices.new watchers.new }
    ensures safe { (holders : List ℕ) → IsSafe rows.old holders → IsSafe rows.new holders }
    ensures all { AreSettledBelow rows.new (length rows.new) }
    ensures shown { (c : Client) (holders : List ℕ) → IsSafe rows.old holders → ShowsRows rows.old holders prices.old watchers.old c
        → ShowsRows rows.new holders prices.new watchers.new (finish c (why_of why)) }
    ensures values { (c : Client) (ops : List OpKind) → ShowsValues rows.old ops settled.old c.taken c.op c.outcome
        → ShowsValues rows.new ops settled.new c.taken c.op (finish c (why_of why)).outcome }
{
    let mut at = from;
    while at < rows.len() {
        give_up(rows, prices, watchers, settled, at, why);
        at += 1;
    }
}
