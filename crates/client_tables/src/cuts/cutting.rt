// What is outstanding goes with its channel, or with the session.
ghost use Rattle.std.specs.Prelude.{◌≡◌, ℕ, ◌<◌, true, false, List, length, slice_index, is_some};
ghost use Rattle.spec_exchange.specs.Table.{has, is_at};
ghost use Rattle.spec_exchange.specs.Client.{Client, cut_channel};
ghost use Rattle.client_rows.specs.operation_rows.Rows.{is_out as outstanding_in};
ghost use Rattle.client_rows.specs.operation_rows.Choosing.{RowCounts};
ghost use Rattle.client_rows.specs.operation_rows.Holding.{IsSafe};
ghost use Rattle.client_rows.specs.Shown.{ShowsRows};
ghost use Rattle.client_tables.specs.cuts.Cutting.{CutLoses, cut_one, end_all, end_one};

use base_lists::{Prices, Watchers};
use client_rows::{Row, lose};

/// Whether an operation is outstanding on a channel.
fn is_on(row: &Row, channel: u8) -> bool
    ensures { result ≡ is_at channel row.now.outstanding_on }
{
    match row.outstanding_on {
        Some(on) => on == channel,
        None => false,
    }
}

/// An operation loses what it has outstanding, where that is on this channel.
fn lose_on(rows: &mut [Row], prices: &mut Prices, watchers: &Watchers, index: usize, channel: u8)
    requires within { index < length rows.old }
    requires counts { RowCounts rows.old prices.old watchers.now }
    ensures count { length rows.new ≡ length rows.old }
    ensures loses { CutLoses rows.old rows.new }
    ensures counts { RowCounts rows.new prices.new watchers.now }
    ensures safe { (holders : List ℕ) → IsSafe rows.old holders → IsSafe rows.new holders }
    ensures shown { (c : Client) (holders : List ℕ) → ShowsRows rows.old holders prices.old watchers.now c
        → ShowsRows rows.new holders prices.new watchers.now (cut_one c channel index) }
{
    if !is_on(&rows[index], channel) {
        return;
    }
    lose(rows, prices, watchers, index);
}

/// Whether something of an operation is outstanding.
fn is_out(row: &Row) -> bool
    ensures { result ≡ is_some row.now.outstanding_on }
{
    row.outstanding_on.is_some()
}

/// An operation loses what it has outstanding.
fn lose_any(rows: &mut [Row], prices: &mut Prices, watchers: &Watchers, index: usize)
    requires within { index < length rows.old }
    requires counts { RowCounts rows.old prices.old watchers.now }
    ensures count { length rows.new ≡ length rows.old }
    ensures loses { CutLoses rows.old rows.new }
    ensures none { outstanding_in rows.new index ≡ false }
    ensures counts { RowCounts rows.new prices.new watchers.now }
    ensures safe { (holders : List ℕ) → IsSafe rows.old holders → IsSafe rows.new holders }
    ensures shown { (c : Client) (holders : List ℕ) → ShowsRows rows.old holders prices.old watchers.now c
        → ShowsRows rows.new holders prices.new watchers.now (end_one c index) }
{
    if !is_out(&rows[index]) {
        return;
    }
    lose(rows, prices, watchers, index);
}

/// A channel is cut: what is outstanding on it is lost (MS-SMB2 3.2.7.1). What is outstanding is among the numbers that are given.
pub fn lose_channel(
    rows: &mut [Row],
    prices: &mut Prices,
    watchers: &Watchers,
    numbers: &[u32],
    channel: u8,
)
    requires within { (i : ℕ) → i < length numbers.now → slice_index numbers.now i < length rows.old }
    requires counts { RowCounts rows.old prices.old watchers.now }
    ensures count { length rows.new ≡ length rows.old }
    ensures loses { CutLoses rows.old rows.new }
    ensures counts { RowCounts rows.new prices.new watchers.now }
    ensures safe { (holders : List ℕ) → IsSafe rows.old holders → IsSafe rows.new holders }
    ensures shown { (c : Client) (holders : List ℕ) → ShowsRows rows.old holders prices.old watchers.now c
        → ((g : ℕ) → is_some (c.outstanding_on g) ≡ true → has g numbers.now ≡ true)
        → ShowsRows rows.new holders prices.new watchers.now (cut_channel c channel) }
{
    for number in numbers {
        lose_on(rows, prices, watchers, *number as usize, channel);
    }
}

/// The session ends: what is outstanding is lost, on whichever channel (MS-SMB2 3.2.7.1). It is among the numbers that are given.
pub fn lose_session(rows: &mut [Row], prices: &mut Prices, watchers: &Watchers, numbers: &[u32])
    requires within { (i : ℕ) → i < length numbers.now → slice_index numbers.now i < length rows.old }
    requires counts { RowCounts rows.old prices.old watchers.now }
    ensures count { length rows.new ≡ length rows.old }
    ensures loses { CutLoses rows.old rows.new }
    ensures none { ((g : ℕ) → outstanding_in rows.old g ≡ true → has g numbers.now ≡ true) → (g : ℕ) → outstanding_in rows.new g ≡ false }
    ensures counts { RowCounts rows.new prices.new watchers.now }
    ensures safe { (holders : List ℕ) → IsSafe rows.old holders → IsSafe rows.new holders }
    ensures shown { (c : Client) (holders : List ℕ) → ShowsRows rows.old holders prices.old watchers.now c
        → ((g : ℕ) → is_some (c.outstanding_on g) ≡ true → has g numbers.now ≡ true)
        → ShowsRows rows.new holders prices.new watchers.now (end_all c) }
{
    for number in numbers {
        lose_any(rows, prices, watchers, *number as usize);
    }
}
