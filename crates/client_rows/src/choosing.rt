// The client's choice at a push.
ghost use Rattle.std.specs.Prelude.{◌≡◌, ℕ, ◌+◌, ◌<◌, ◌≤◌, true, List, length, None, IfSome, IfNone};
ghost use Rattle.spec_exchange.specs.Client.{Client};
ghost use Rattle.spec_exchange.specs.Schedules.{choose};
ghost use Rattle.law_client.specs.table.Kept.{TableKept};
ghost use Rattle.law_client.specs.choice.Choosing.{ChoiceGoes, chosen};
ghost use Rattle.client_rows.specs.operation_rows.Holding.{Alike, IsSafe};
ghost use Rattle.client_rows.specs.operation_rows.Choosing.{RowCounts};
ghost use Rattle.client_rows.specs.Shown.{ShowsRows};

use crate::operation_rows::{Row, find_from};
use base_lists::{Prices, Watchers};

/// The operation that the model's client chooses, from one on: the lowest that may go out and is paid for. Of a lock that has
/// to take a slot first, `chosen` goes on by its slots. What is found to wait is noted so, and nothing else changes.
pub fn choose_from(
    rows: &mut [Row],
    holders: &[u32],
    prices: &mut Prices,
    watchers: &mut Watchers,
    start: usize,
    credits: u8,
) -> Option<usize>
    requires safe { IsSafe rows.old holders.now }
    requires counts { RowCounts rows.old prices.old watchers.old }
    requires above { 0 < start }
    requires credits { credits < 255 }
    ensures alike { Alike rows.old rows.new }
    ensures safe { IsSafe rows.new holders.now }
    ensures counts { RowCounts rows.new prices.new watchers.new }
    ensures inside { IfSome result (λ i. i < length rows.old) }
    ensures behind { (c : Client) → ShowsRows rows.old holders.now prices.old watchers.old c → IfSome result (λ i. start ≤ i) }
    ensures shown { (c : Client) → ShowsRows rows.old holders.now prices.old watchers.old c
        → ShowsRows rows.new holders.now prices.new watchers.new c }
    ensures none { (c : Client) (k m : ℕ) (slotless : List ℕ) → ShowsRows rows.old holders.now prices.old watchers.old c
        → TableKept c → start + m ≡ c.taken + 1
        → IfNone result (choose c k credits slotless start m ≡ record { slotless = slotless; pick = None }) }
    ensures some { (c : Client) (k d n : ℕ) (slotless : List ℕ) → ShowsRows rows.old holders.now prices.old watchers.old c
        → TableKept c → c.ready k ≡ true → IfSome result (λ i. start + d ≡ i → i + n ≡ c.taken
        → choose c k credits slotless start (d + (n + 1)) ≡ chosen c k credits slotless i n) }
    ensures goes { (c : Client) → ShowsRows rows.old holders.now prices.old watchers.old c → IfSome result (λ i. ChoiceGoes c credits i) }
{
    find_from(rows, holders, prices, watchers, start, credits)
}
