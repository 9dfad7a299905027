// The lowest operation that may go out and is paid for.
ghost use Rattle.std.specs.Prelude.{◌≡◌, ℕ, ◌+◌, ◌-◌, ◌<◌, ◌≤◌, ◌^◌, Bool, List, length, IfSome, IfNone, MatchOption};
ghost use Rattle.base_lists.specs.declared.watch_lists.Link.{Link as Watch};
ghost use Rattle.client_rows.specs.operation_rows.Holding.{Alike, IsSafe};
ghost use Rattle.client_rows.specs.operation_rows.Choosing.{RowCounts, RowStands, IsLeast, AllStay};

use crate::operation_rows::holders::holder_of;
use crate::operation_rows::row::Row;
use base_lists::{NEVER, Prices, Watchers};

/// The lowest operation from one on that nothing holds up and whose price is paid. What is found to wait is noted so.
pub fn find_from(
    rows: &mut [Row],
    holders: &[u32],
    prices: &mut Prices,
    watchers: &mut Watchers,
    start: usize,
    credits: u8,
) -> Option<usize>
    requires safe { IsSafe rows.old holders.now }
    requires counts { RowCounts rows.old prices.old watchers.old }
    requires above { 0 < start }
    requires credits { credits < 255 }
    ensures alike { Alike rows.old rows.new }
    ensures safe { IsSafe rows.new holders.now }
    ensures counts { RowCounts rows.new prices.new watchers.new }
    ensures inside { IfSome result (λ i. i < length rows.old) }
    ensures chosen { (holds : ℕ → ℕ → Bool) (fills : ℕ → Bool) (cost : ℕ → ℕ)
        → RowStands holds fills cost rows.old holders.now prices.old watchers.old
        → MatchOption result (AllStay holds cost credits rows.old start (length rows.old))
        (λ i. IsLeast holds cost credits rows.old start i) }
    ensures stands { (holds : ℕ → ℕ → Bool) (fills : ℕ → Bool) (cost : ℕ → ℕ)
        → RowStands holds fills cost rows.old holders.now prices.old watchers.old
        → RowStands holds fills cost rows.new holders.now prices.new watchers.new }
{
    let mut from = start;
    while from < rows.len() {
        let Some(index) = prices.first_from(from, credits) else {
            return None;
        };
        let holder = holder_of(rows, holders, index);
        if holder == 0 {
            return Some(index);
        }
        // Noted under one holder and priced out of reach, so that it isn't looked at again before that one settles.
        watchers.watch(index, holder as usize);
        prices.set(index, NEVER);
        from = index + 1;
    }
    None
}
