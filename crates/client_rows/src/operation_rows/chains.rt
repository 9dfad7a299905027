// Links from an operation to lower ones of its open. Settled ones leave them on the way.
ghost use Rattle.std.specs.Prelude.{◌≡◌, ℕ, ◌<◌, ◌≤◌, Bool, true, false, length, slice_set};
ghost use Rattle.client_rows.specs.operation_rows.Rows.{row_at, stands, link_of, with_link, links};
ghost use Rattle.client_rows.specs.operation_rows.Chains.{Descends, Chained, IsChainOn, Reaches, SameBut};

use crate::operation_rows::row::Row;

/// Which of an operation's links is followed.
#[derive(Clone, Copy, Debug, PartialEq, Eq)]
pub enum Chain {
    All,
    Changes,
    Filled,
    Dear,
}

/// Where an operation's link leads.
pub fn link(row: &Row, chain: Chain) -> u32
    ensures { result ≡ link_of chain row.now }
{
    match chain {
        Chain::All => row.lower,
        Chain::Changes => row.change,
        Chain::Filled => row.filled,
        Chain::Dear => row.dear,
    }
}

fn relinked(row: Row, chain: Chain, to: u32) -> Row
    ensures { result ≡ with_link chain row to }
{
    match chain {
        Chain::All => Row { lower: to, ..row },
        Chain::Changes => Row { change: to, ..row },
        Chain::Filled => Row { filled: to, ..row },
        Chain::Dear => Row { dear: to, ..row },
    }
}

/// The first unsettled one of a chain, from one on; 0 where there is none.
pub fn first_unsettled(rows: &mut [Row], chain: Chain, from: u32) -> u32
    requires within { from < length rows.old }
    requires descends { Descends (links chain rows.old) }
    ensures found { 0 < result → stands rows.old result ≡ true }
    ensures below { result ≤ from }
    ensures same { SameBut chain rows.old rows.new }
    ensures descends { Descends (links chain rows.new) }
    ensures reaches { (on : ℕ → ℕ → Bool) → Chained (links chain rows.old) on (stands rows.old) → Reaches on (stands rows.old) from result }
    ensures chained { (on : ℕ → ℕ → Bool) → Chained (links chain rows.old) on (stands rows.old)
        → Chained (links chain rows.new) on (stands rows.new) }
{
    let mut at = from;
    while at != 0 {
        if rows[at as usize].unsettled {
            return at;
        }
        let next = link(&rows[at as usize], chain);
        if next == 0 {
            return 0;
        }
        if rows[next as usize].unsettled {
            return next;
        }
        let behind = link(&rows[next as usize], chain);
        // What settled stays settled, so the longer link is kept: else each search would walk over all settled ones
        // again.
        rows[at as usize] = relinked(rows[at as usize], chain, behind);
        at = behind;
    }
    0
}

/// The highest unsettled one of the chain that an operation's link leads down; 0 where there is none.
pub fn highest_below(rows: &mut [Row], chain: Chain, index: usize) -> u32
    requires within { index < length rows.old }
    requires descends { Descends (links chain rows.old) }
    ensures inside { result ≤ index }
    ensures same { SameBut chain rows.old rows.new }
    ensures descends { Descends (links chain rows.new) }
    ensures some { (on : ℕ → ℕ → Bool) → Chained (links chain rows.old) on (stands rows.old) → 0 < result
        → IsChainOn on (stands rows.old) result index }
    ensures none { (on : ℕ → ℕ → Bool) → Chained (links chain rows.old) on (stands rows.old) → result ≡ 0 → (h : ℕ)
        → 0 < h → h < index → on h index ≡ true → stands rows.old h ≡ false }
    ensures chained { (on : ℕ → ℕ → Bool) → Chained (links chain rows.old) on (stands rows.old)
        → Chained (links chain rows.new) on (stands rows.new) }
{
    let from = link(&rows[index], chain);
    first_unsettled(rows, chain, from)
}
