// What holds up an operation.
ghost use Rattle.std.specs.Prelude.{◌≡◌, ℕ, ◌<◌, ◌≤◌, Bool, true, false, List, length, ◌⊎◌};
ghost use Rattle.client_rows.specs.operation_rows.Rows.{stands, owner, kind};
ghost use Rattle.client_rows.specs.operation_rows.Holding.{Alike, AreFirst, ChainsFit, Descend, FitsRows, HoldingHolder, IsSafe, on_chain};

use crate::operation_rows::chains::{Chain, highest_below};
use crate::operation_rows::listed::listed_holder;
use crate::operation_rows::row::Row;
use client_values::Kind;

/// Whether the create of an operation is another one that is unsettled.
fn waits_for_create(rows: &[Row], index: usize) -> bool
    requires within { index < length rows.now }
    requires owned { owner rows.now index ≤ index }
    ensures yes { result ≡ true → (owner rows.now index < index) × (stands rows.now (owner rows.now index) ≡ true) }
    ensures no { result ≡ false → (owner rows.now index ≡ index) ⊎ (stands rows.now (owner rows.now index) ≡ false) }
{
    let create = rows[index].create as usize;
    if create == index {
        return false;
    }
    rows[create].unsettled
}

/// The highest unsettled one of the chain that an operation of this kind goes down, or 0.
fn chain_holder(rows: &mut [Row], index: usize) -> u32
    requires within { index < length rows.old }
    requires descend { Descend rows.old }
    ensures inside { result ≤ index }
    ensures alike { Alike rows.old rows.new }
    ensures safe { (holders : List ℕ) → IsSafe rows.old holders → IsSafe rows.new holders }
    ensures some { (holds : ℕ → ℕ → Bool) (fills : ℕ → Bool) → ChainsFit holds fills rows.old → 0 < result
        → HoldingHolder holds (owner rows.old) (stands rows.old) result index }
    ensures none { (holds : ℕ → ℕ → Bool) (fills : ℕ → Bool) → ChainsFit holds fills rows.old → result ≡ 0 → (h : ℕ)
        → 0 < h → h < index → on_chain (kind rows.old index) (owner rows.old) (kind rows.old) fills h index ≡ true
        → stands rows.old h ≡ false }
    ensures fits { (holds : ℕ → ℕ → Bool) (fills : ℕ → Bool) (holders : List ℕ) → FitsRows holds fills rows.old holders
        → FitsRows holds fills rows.new holders }
{
    match rows[index].kind {
        Kind::End => highest_below(rows, Chain::Changes, index),
        Kind::Change => highest_below(rows, Chain::Changes, index),
        Kind::Look => highest_below(rows, Chain::Filled, index),
        Kind::Close => highest_below(rows, Chain::All, index),
        _ => 0,
    }
}

/// An operation that holds up the one at an index, or 0 where none does.
pub fn holder_of(rows: &mut [Row], holders: &[u32], index: usize) -> u32
    requires within { index < length rows.old }
    requires safe { IsSafe rows.old holders.now }
    ensures inside { result < length rows.old }
    ensures alike { Alike rows.old rows.new }
    ensures safe { IsSafe rows.new holders.now }
    ensures some { (holds : ℕ → ℕ → Bool) (fills : ℕ → Bool) → FitsRows holds fills rows.old holders.now → 0 < result
        → HoldingHolder holds (owner rows.old) (stands rows.old) result index }
    ensures none { (holds : ℕ → ℕ → Bool) (fills : ℕ → Bool) → FitsRows holds fills rows.old holders.now
        → AreFirst holds (owner rows.old) (stands rows.old) → result ≡ 0 → (h : ℕ) → 0 < h
        → HoldingHolder holds (owner rows.old) (stands rows.old) h index → ⊥ }
    ensures fits { (holds : ℕ → ℕ → Bool) (fills : ℕ → Bool) → FitsRows holds fills rows.old holders.now
        → AreFirst holds (owner rows.old) (stands rows.old) → FitsRows holds fills rows.new holders.now }
{
    // Any holder will do, so the cheapest look comes first: to walk down to the create from each operation is
    // quadratic.
    if waits_for_create(rows, index) {
        return rows[index].create;
    }
    let listed = listed_holder(rows, holders, index);
    if listed != 0 {
        return listed;
    }
    chain_holder(rows, index)
}
