//! Prices by index, and the least index whose price is paid.

ghost use Rattle.std.specs.Prelude.{◌≡◌, ℕ, ◌+◌, ◌*◌, ◌/◌, ◌<◌, ◌≤◌, ◌∷◌, [], ◌++◌, length, slice_index, slice_set};
ghost use Rattle.std.specs.Prelude.{MatchOption, OnOk, OnErr};
ghost use Rattle.base_lists.specs.price_table.Prices.{AllAbove, Before, IsFirstPrice};

mod block;
mod lows;

pub use block::NEVER;
use block::{BLOCK, first_in, low_of};
use lows::Lows;
use std::alloc::{AllocError, Global};
use std::marker::Model;

/// Prices, in blocks of which a bound from below is kept. A call takes a few hundred steps for a million prices.
#[derive(Drop)]
pub struct Prices {
    all: Vec<u8>,
    lows: Lows,
}

impl Model for Prices {
    ghost use Rattle.std.specs.Prelude.{List, ℕ};
    ghost use Rattle.base_lists.specs.price_table.Prices.{PriceBounds};

    ghost Value = { List ℕ };

    ghost view = { λ p. p.all.items };

    ghost invariant = { λ p. PriceBounds p.all.items p.lows };
}

impl Prices {
    /// No prices. It takes no memory.
    pub fn new(alloc: Global) -> Prices
        ensures { result ≡ [] }
    {
        Prices {
            all: Vec::new(alloc),
            lows: Lows::new(alloc),
        }
    }

    pub fn len(&self) -> usize
        ensures { result ≡ length self.now }
    {
        self.all.len()
    }

    /// The least index from one on whose price is at most the limit.
    pub fn first_from(&self, from: usize, limit: u8) -> Option<usize>
        requires { from ≤ length self.now }
        ensures { MatchOption result (AllAbove limit self.now from (length self.now)) (λ i. IsFirstPrice limit self.now from i) }
    {
        let end = self.all.len().min(from / BLOCK * BLOCK + BLOCK);
        match first_in(&self.all[from..end], limit) {
            Some(i) => Some(from + i),
            None => self.first_behind(from, limit),
        }
    }

    /// The least index from one on whose price is at most the limit, where none of its block is.
    fn first_behind(&self, from: usize, limit: u8) -> Option<usize>
        requires { Before limit self.now from (from / 128 + 1) }
        ensures { MatchOption result (AllAbove limit self.now from (length self.now)) (λ i. IsFirstPrice limit self.now from i) }
    {
        let mut next = from / BLOCK + 1;
        while next < self.lows.len() {
            let Some(block) = self.lows.first_from(next, limit) else {
                return None;
            };
            let start = block * BLOCK;
            let end = self.all.len().min(start + BLOCK);
            if let Some(i) = first_in(&self.all[start..end], limit) {
                return Some(start + i);
            }
            next = block + 1;
        }
        None
    }

    /// Sets the price at an index.
    pub fn set(&mut self, index: usize, price: u8)
        requires { index < length self.old }
        ensures { self.new ≡ slice_set self.old index price }
    {
        self.all[index] = price;
        let block = index / BLOCK;
        let low = self.lows.get(block);
        if price <= low {
            self.lows.set(block, price);
        } else {
            let start = block * BLOCK;
            let end = self.all.len().min(start + BLOCK);
            let low = low_of(&self.all[start..end]);
            self.lows.set(block, low);
        }
    }

    /// Adds a price that nothing pays. Where memory runs out nothing changes.
    pub fn push(&mut self) -> Result<(), AllocError>
        ensures ok { OnOk result (self.new ≡ self.old ++ 255 ∷ []) }
        ensures err { OnErr result (self.new ≡ self.old) }
    {
        self.all.reserve(1)?;
        if self.all.len() % BLOCK == 0 {
            self.lows.push()?;
        }
        let _ = self.all.push(NEVER);
        Ok(())
    }
}
