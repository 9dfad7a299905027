//! A block of prices.
ghost use Rattle.std.specs.Prelude.{◌≡◌, ℕ, ◌<◌, ◌≤◌, length, slice_index, MatchOption};
ghost use Rattle.base_lists.specs.price_table.Prices.{AllAbove, IsFirstPrice};

/// The price that nothing pays.
pub const NEVER: u8 = 255;

// With two levels of this size a search among a million prices reads a few hundred entries. In a plain list a million
// searches would take hours.
/// How many prices a block has.
pub const BLOCK: usize = 128;

/// The index of the first price that is at most a limit.
pub fn first_in(prices: &[u8], limit: u8) -> Option<usize>
    ensures { MatchOption result (AllAbove limit prices.now 0 (length prices.now)) (λ i. IsFirstPrice limit prices.now 0 i) }
{
    prices.iter().position(|price| *price <= limit)
}

/// The least price of a block.
pub fn low_of(prices: &[u8]) -> u8
    ensures { (i : ℕ) → i < length prices.now → result ≤ slice_index prices.now i }
{
    let mut low = NEVER;
    for price in prices {
        if *price < low {
            low = *price;
        }
    }
    low
}
