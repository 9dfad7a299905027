// The price of each operation of an open, as its open is attached or isn't.
ghost use Rattle.std.specs.Prelude.{◌≡◌, ℕ, ◌<◌, Bool, true, false, List, length, slice_set};
ghost use Rattle.spec_exchange.specs.Table.{put};
ghost use Rattle.spec_exchange.specs.Client.{Client};
ghost use Rattle.client_rows.specs.declared.operation_rows.chains.Chain.TheVariants as chains;
ghost use Rattle.client_rows.specs.operation_rows.Rows.{row_at, stands, owner, links};
ghost use Rattle.client_rows.specs.operation_rows.Chains.{Descends};
ghost use Rattle.client_rows.specs.operation_rows.Choosing.{RowCounts};
ghost use Rattle.client_rows.specs.operation_rows.Holding.{IsSafe};
ghost use Rattle.client_rows.specs.operation_rows.Moves.{StandsRows};
ghost use Rattle.client_rows.specs.Shown.{KeepsRow, ShowsRows};
ghost use Rattle.client_tables.specs.costs.Costs.{ShowsPaid, cost_where, paid_where, priced_row, unattached_cost};

use base_lists::{Prices, Watchers};
use client_rows::{Chain, Row, change, first_unsettled};
use client_values::Kind;

fn cost_unattached(kind: Kind, charge: u8) -> u8
    ensures { result ≡ unattached_cost kind charge }
{
    match kind {
        Kind::Create => charge,
        _ => 1,
    }
}

fn cost_of(row: &Row, attached: bool) -> u8
    ensures { result ≡ cost_where attached row.now.kind row.now.charge }
{
    if attached {
        row.charge
    } else {
        cost_unattached(row.kind, row.charge)
    }
}

/// An operation costs what it does where its open is attached, or isn't. A cost is in credits (MS-SMB2 3.2.4.1.5).
pub fn price_one(
    rows: &mut [Row],
    prices: &mut Prices,
    watchers: &Watchers,
    index: usize,
    attached: bool,
)
    requires within { index < length rows.old }
    requires counts { RowCounts rows.old prices.old watchers.now }
    ensures row { rows.new ≡ slice_set rows.old index (priced_row attached (row_at rows.old index)) }
    ensures count { length rows.new ≡ length rows.old }
    ensures descends { Descends (links chains.All rows.old) → Descends (links chains.All rows.new) }
    ensures counts { RowCounts rows.new prices.new watchers.now }
    ensures safe { (holders : List ℕ) → IsSafe rows.old holders → IsSafe rows.new holders }
    ensures stands { (holds : ℕ → ℕ → Bool) (fills : ℕ → Bool) (holders : List ℕ)
        → StandsRows holds fills rows.old holders prices.old watchers.now
        → StandsRows holds fills rows.new holders prices.new watchers.now }
{
    let cost = cost_of(&rows[index], attached);
    let row = Row {
        cost,
        ..rows[index]
    };
    change(rows, prices, watchers, index, row);
}

/// Each operation of an open costs what it does where the open is attached, or isn't; a cost is in credits (MS-SMB2 3.2.4.1.5).
/// A request that attaches an open costs one (3.2.4.4). `last` is the highest of them that may be unsettled.
pub fn price_open(
    rows: &mut [Row],
    prices: &mut Prices,
    watchers: &Watchers,
    last: u32,
    attached: bool,
)
    requires within { last < length rows.old }
    requires counts { RowCounts rows.old prices.old watchers.now }
    requires descends { Descends (links chains.All rows.old) }
    ensures count { length rows.new ≡ length rows.old }
    ensures place { (x : ℕ) → KeepsRow rows.old rows.new x }
    ensures counts { RowCounts rows.new prices.new watchers.now }
    ensures safe { (holders : List ℕ) → IsSafe rows.old holders → IsSafe rows.new holders }
    ensures shown { (c : Client) (holders : List ℕ) (paid : ℕ → ℕ) → ShowsPaid rows.old holders prices.old watchers.now c paid
        → ((h : ℕ) → last < h → owner rows.old h ≡ owner rows.old last → stands rows.old h ≡ false)
        → ShowsPaid rows.new holders prices.new watchers.now c (paid_where rows.old attached last paid) }
{
    let mut at = first_unsettled(rows, Chain::All, last);
    while at != 0 {
        price_one(rows, prices, watchers, at as usize, attached);
        let below = rows[at as usize].lower;
        at = first_unsettled(rows, Chain::All, below);
    }
}

/// An open is attached in this session: its operations go out themselves from now on, each for its charge in credits (MS-SMB2
/// 3.2.4.1.5).
pub fn attach(rows: &mut [Row], prices: &mut Prices, watchers: &Watchers, last: u32)
    requires within { last < length rows.old }
    requires counts { RowCounts rows.old prices.old watchers.now }
    requires descends { Descends (links chains.All rows.old) }
    ensures count { length rows.new ≡ length rows.old }
    ensures place { (x : ℕ) → KeepsRow rows.old rows.new x }
    ensures counts { RowCounts rows.new prices.new watchers.now }
    ensures safe { (holders : List ℕ) → IsSafe rows.old holders → IsSafe rows.new holders }
    ensures shown { (c : Client) (holders : List ℕ) → ShowsRows rows.old holders prices.old watchers.now c
        → ((h : ℕ) → last < h → owner rows.old h ≡ owner rows.old last → stands rows.old h ≡ false) → c.live ≡ true
        → ShowsRows rows.new holders prices.new watchers.now (record c {
          attached = put c.attached (owner rows.old last) c.session_number;
        }) }
{
    price_open(rows, prices, watchers, last, true);
}
