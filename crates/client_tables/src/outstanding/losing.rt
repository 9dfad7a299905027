// What is outstanding is lost, and its numbers leave the set.
ghost use Rattle.std.specs.Prelude.{◌≡◌, ℕ, List};
ghost use Rattle.spec_exchange.specs.Client.{Client, cut_channel};
ghost use Rattle.base_lists.specs.number_set.Members.{count};
ghost use Rattle.client_rows.specs.operation_rows.Holding.{IsSafe};
ghost use Rattle.client_rows.specs.operation_rows.Choosing.{RowCounts};
ghost use Rattle.client_rows.specs.Shown.{ShowsRows};
ghost use Rattle.client_tables.specs.cuts.Cutting.{CutLoses, end_all};
ghost use Rattle.client_tables.specs.outstanding.Shown.{HoldsOut};

use crate::cuts::{lose_channel, lose_session};
use crate::outstanding::sweeping::sweep;
use base_lists::{Members, Prices, Watchers};
use client_rows::Row;

/// A channel is cut: what is outstanding on it is lost, and is no member any more (MS-SMB2 3.2.7.1).
pub fn lose_on_channel(
    rows: &mut [Row],
    prices: &mut Prices,
    watchers: &Watchers,
    out: &mut Members,
    channel: u8,
)
    requires counts { RowCounts rows.old prices.old watchers.now }
    requires out { HoldsOut rows.old out.old }
    ensures counts { RowCounts rows.new prices.new watchers.now }
    ensures safe { (holders : List ℕ) → IsSafe rows.old holders → IsSafe rows.new holders }
    ensures loses { CutLoses rows.old rows.new }
    ensures out { HoldsOut rows.new out.new }
    ensures shown { (c : Client) (holders : List ℕ) → ShowsRows rows.old holders prices.old watchers.now c
        → ShowsRows rows.new holders prices.new watchers.now (cut_channel c channel) }
{
    lose_channel(rows, prices, watchers, out.members(), channel);
    sweep(rows, out);
}

/// The session ends: what is outstanding is lost, on whichever channel, and there is no member any more (MS-SMB2 3.2.7.1).
pub fn lose_all(rows: &mut [Row], prices: &mut Prices, watchers: &Watchers, out: &mut Members)
    requires counts { RowCounts rows.old prices.old watchers.now }
    requires out { HoldsOut rows.old out.old }
    ensures counts { RowCounts rows.new prices.new watchers.now }
    ensures safe { (holders : List ℕ) → IsSafe rows.old holders → IsSafe rows.new holders }
    ensures loses { CutLoses rows.old rows.new }
    ensures out { HoldsOut rows.new out.new }
    ensures none { count out.new ≡ 0 }
    ensures shown { (c : Client) (holders : List ℕ) → ShowsRows rows.old holders prices.old watchers.now c
        → ShowsRows rows.new holders prices.new watchers.now (end_all c) }
{
    lose_session(rows, prices, watchers, out.members());
    out.clear();
}
