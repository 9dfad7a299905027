// One operation more, as the model's client takes it.
ghost use Rattle.std.specs.Prelude.{◌≡◌, ℕ, ◌+◌, ◌<◌, ◌≤◌, List, length, ◌∷◌, [], ◌++◌, vec_len, vec_capacity};
ghost use Rattle.spec_exchange.specs.Table.{put};
ghost use Rattle.spec_exchange.specs.Operations.{Op};
ghost use Rattle.spec_exchange.specs.Client.{Client, create_for, take_op};
ghost use Rattle.client_rows.specs.operation_rows.Choosing.{RowCounts};
ghost use Rattle.client_rows.specs.operation_rows.Holding.{IsSafe};
ghost use Rattle.client_rows.specs.operation_rows.Taking.{IsRowNew};
ghost use Rattle.client_rows.specs.Shown.{ShowsRows, fills_by, waits_by};
ghost use Rattle.client_tables.specs.submits.Taken.{IsRowOf};

use base_lists::{Prices, Watchers};
use client_rows::{Row, add};

/// Takes an operation for which there is room. It takes no memory. How a client keeps its operations is this project's.
pub fn add_one(rows: &mut Vec<Row>, prices: &mut Prices, watchers: &Watchers, row: Row)
    requires counts { RowCounts rows.old.items prices.old watchers.now }
    requires room { vec_len rows.old < vec_capacity rows.old }
    requires priced { length rows.old.items < length prices.old }
    requires watched { length rows.old.items < length watchers.now }
    ensures more { rows.new.items ≡ rows.old.items ++ row ∷ [] }
    ensures counts { RowCounts rows.new.items prices.new watchers.now }
    ensures safe { (c : Client) (op : Op) (holders : List ℕ) → IsSafe rows.old.items holders
        → IsRowNew (waits_by (put c.op (length rows.old.items) op)) (fills_by (put c.op (length rows.old.items) op)) rows.new.items holders
        (length rows.old.items) → 0 < length rows.old.items → IsSafe rows.new.items holders }
    ensures shown { (c : Client) (op : Op) (holders : List ℕ) → IsSafe rows.old.items holders
        → ShowsRows rows.old.items holders prices.old watchers.now c → length rows.old.items ≡ c.taken + 1
        → ((g : ℕ) → 0 < g → g ≤ c.taken → 0 < create_for c g) → IsRowOf row c (length rows.old.items) op
        → IsRowNew (waits_by (put c.op (length rows.old.items) op)) (fills_by (put c.op (length rows.old.items) op)) rows.new.items holders
        (length rows.old.items)
        → ShowsRows rows.new.items holders prices.new watchers.now (take_op c (length rows.old.items) op) }
{
    add(rows, prices, watchers, row);
}
