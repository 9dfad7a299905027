// One operation more.
ghost use Rattle.std.specs.Prelude.{◌≡◌, ℕ, ◌+◌, ◌<◌, ◌≤◌, ◌^◌, Bool, List, length, ◌∷◌, [], ◌++◌, OnOk, OnErr};
ghost use Rattle.std.specs.Prelude.{vec_len, vec_capacity, slice_set};
ghost use Rattle.base_lists.specs.watch_lists.Listed.{watches};
ghost use Rattle.client_rows.specs.operation_rows.Rows.{no_row};
ghost use Rattle.client_rows.specs.operation_rows.Choosing.{RowCounts};
ghost use Rattle.client_rows.specs.operation_rows.Holding.{IsSafe};
ghost use Rattle.client_rows.specs.operation_rows.Moves.{StandsRows};
ghost use Rattle.client_rows.specs.operation_rows.Taking.{Grew, IsRowNew};

use crate::operation_rows::moves::price;
use crate::operation_rows::row::Row;
use base_lists::{NEVER, Prices, Watchers};
use client_values::Kind;
use std::alloc::AllocError;

fn count_of(rows: &Vec<Row>) -> usize
    ensures { result ≡ length rows.now.items }
{
    rows.len()
}

/// Where there is no price behind the first ones, adds one that nothing pays.
fn grow_prices(prices: &mut Prices, count: usize) -> Result<(), AllocError>
    requires { count ≤ length prices.old }
    ensures grown { OnOk result (count < length prices.new) }
    ensures grew { Grew prices.old prices.new }
{
    if count < prices.len() {
        return Ok(());
    }
    prices.push()
}

/// Where there is no number behind the first ones, adds one that watches none.
fn grow_watchers(watchers: &mut Watchers, count: usize) -> Result<(), AllocError>
    requires within { count ≤ length watchers.old }
    requires few { length watchers.old < 2 ^ 32 }
    requires less { count + 1 < 2 ^ 32 }
    ensures grown { OnOk result (count < length watchers.new) }
    ensures more { length watchers.old ≤ length watchers.new }
    ensures few { length watchers.new < 2 ^ 32 }
    ensures watch { (g : ℕ) → watches watchers.new g ≡ watches watchers.old g }
{
    if count < watchers.len() {
        return Ok(());
    }
    watchers.push()
}

/// Adds a row, for which there is room.
fn put_row(rows: &mut Vec<Row>, row: Row)
    requires { vec_len rows.old < vec_capacity rows.old }
    ensures { rows.new.items ≡ rows.old.items ++ row ∷ [] }
{
    let _ = rows.push(row);
}

/// Makes room for one operation more, whatever it is. Nothing is taken, and where memory runs out what was taken stays as it
/// is.
pub fn make_room(
    rows: &mut Vec<Row>,
    prices: &mut Prices,
    watchers: &mut Watchers,
) -> Result<(), AllocError>
    requires counts { RowCounts rows.old.items prices.old watchers.old }
    requires few { length rows.old.items + 1 < 2 ^ 32 }
    ensures same { rows.new.items ≡ rows.old.items }
    ensures counts { RowCounts rows.new.items prices.new watchers.new }
    ensures stands { (holds : ℕ → ℕ → Bool) (fills : ℕ → Bool) (holders : List ℕ)
        → StandsRows holds fills rows.old.items holders prices.old watchers.old
        → StandsRows holds fills rows.new.items holders prices.new watchers.new }
    ensures room { OnOk result (vec_len rows.new < vec_capacity rows.new) }
    ensures priced { OnOk result (length rows.new.items < length prices.new) }
    ensures watched { OnOk result (length rows.new.items < length watchers.new) }
{
    rows.reserve(1)?;
    let count = count_of(rows);
    grow_prices(prices, count)?;
    grow_watchers(watchers, count)?;
    Ok(())
}

/// The row of no operation.
fn none() -> Row
    ensures { result ≡ no_row }
{
    Row {
        kind: Kind::Create,
        unsettled: false,
        firm: false,
        sent: false,
        asking: false,
        unanswered: false,
        charge: 0,
        cost: 0,
        slot: 0,
        slot_number: 0,
        sequence: 0,
        outstanding_on: None,
        create: 0,
        open: 0,
        holders: 0,
        holders_end: 0,
        lower: 0,
        change: 0,
        filled: 0,
        dear: 0,
    }
}

/// The row of no operation becomes the first one, for which there is room.
fn put_none(rows: &mut Vec<Row>, prices: &mut Prices)
    requires none { rows.old.items ≡ [] }
    requires room { vec_len rows.old < vec_capacity rows.old }
    requires priced { 0 < length prices.old }
    ensures row { rows.new.items ≡ no_row ∷ [] }
    ensures price { prices.new ≡ slice_set prices.old 0 255 }
{
    prices.set(0, NEVER);
    put_row(rows, none());
}

/// Makes the first row, which is of no operation. Where memory runs out there is none.
pub fn begin(
    rows: &mut Vec<Row>,
    prices: &mut Prices,
    watchers: &mut Watchers,
) -> Result<(), AllocError>
    requires none { rows.old.items ≡ [] }
    requires counts { RowCounts rows.old.items prices.old watchers.old }
    ensures counts { RowCounts rows.new.items prices.new watchers.new }
    ensures ok { OnOk result (rows.new.items ≡ no_row ∷ []) }
    ensures err { OnErr result (rows.new.items ≡ []) }
    ensures safe { OnOk result ((holders : List ℕ) → IsSafe rows.new.items holders) }
    ensures stands { (holds : ℕ → ℕ → Bool) (fills : ℕ → Bool) (holders : List ℕ)
        → StandsRows holds fills rows.old.items holders prices.old watchers.old
        → StandsRows holds fills rows.new.items holders prices.new watchers.new }
{
    make_room(rows, prices, watchers)?;
    put_none(rows, prices);
    Ok(())
}

/// Takes an operation, with its price, where there is room for it. It takes no memory.
pub fn add(rows: &mut Vec<Row>, prices: &mut Prices, watchers: &Watchers, row: Row)
    requires counts { RowCounts rows.old.items prices.old watchers.now }
    requires room { vec_len rows.old < vec_capacity rows.old }
    requires priced { length rows.old.items < length prices.old }
    requires watched { length rows.old.items < length watchers.now }
    ensures more { rows.new.items ≡ rows.old.items ++ row ∷ [] }
    ensures counts { RowCounts rows.new.items prices.new watchers.now }
    ensures stands { (holds : ℕ → ℕ → Bool) (fills : ℕ → Bool) (holders : List ℕ) → IsSafe rows.old.items holders
        → StandsRows holds fills rows.old.items holders prices.old watchers.now
        → IsRowNew holds fills rows.new.items holders (length rows.old.items)
        → StandsRows holds fills rows.new.items holders prices.new watchers.now }
    ensures safe { (holds : ℕ → ℕ → Bool) (fills : ℕ → Bool) (holders : List ℕ) → IsSafe rows.old.items holders
        → IsRowNew holds fills rows.new.items holders (length rows.old.items) → 0 < length rows.old.items
        → IsSafe rows.new.items holders }
{
    let count = count_of(rows);
    let price = price(&row, 0);
    prices.set(count, price);
    put_row(rows, row);
}

/// Takes an operation, with its price. Where memory runs out it isn't taken, and what was taken stays as it is.
pub fn take(
    rows: &mut Vec<Row>,
    prices: &mut Prices,
    watchers: &mut Watchers,
    row: Row,
) -> Result<(), AllocError>
    requires counts { RowCounts rows.old.items prices.old watchers.old }
    requires few { length rows.old.items + 1 < 2 ^ 32 }
    ensures counts { RowCounts rows.new.items prices.new watchers.new }
    ensures ok { OnOk result (rows.new.items ≡ rows.old.items ++ row ∷ []) }
    ensures err { OnErr result (rows.new.items ≡ rows.old.items) }
    ensures stands { OnOk result ((holds : ℕ → ℕ → Bool) (fills : ℕ → Bool) (holders : List ℕ)
        → IsSafe rows.old.items holders
        → StandsRows holds fills rows.old.items holders prices.old watchers.old
        → IsRowNew holds fills rows.new.items holders (length rows.old.items)
        → StandsRows holds fills rows.new.items holders prices.new watchers.new) }
    ensures safe { OnOk result ((holds : ℕ → ℕ → Bool) (fills : ℕ → Bool) (holders : List ℕ)
        → IsSafe rows.old.items holders
        → IsRowNew holds fills rows.new.items holders (length rows.old.items) → 0 < length rows.old.items
        → IsSafe rows.new.items holders) }
    ensures kept { OnErr result ((holds : ℕ → ℕ → Bool) (fills : ℕ → Bool) (holders : List ℕ)
        → StandsRows holds fills rows.old.items holders prices.old watchers.old
        → StandsRows holds fills rows.new.items holders prices.new watchers.new) }
{
    make_room(rows, prices, watchers)?;
    add(rows, prices, watchers, row);
    Ok(())
}
