//! Prices in blocks, with the least price of each block.
ghost use Rattle.std.specs.Prelude.{◌≡◌, ℕ, ◌+◌, ◌*◌, ◌/◌, ◌<◌, ◌≤◌, ◌∷◌, [], ◌++◌, length, slice_index, slice_set};
ghost use Rattle.std.specs.Prelude.{MatchOption, OnOk, OnErr};
ghost use Rattle.base_lists.specs.price_table.Prices.{AllAbove, Before, IsFirstPrice};

use crate::price_table::block::{BLOCK, NEVER, first_in, low_of};
use std::alloc::{AllocError, Global};
use std::marker::Model;

/// Prices, in blocks of which a bound from below is kept.
#[derive(Drop)]
pub struct Lows {
    all: Vec<u8>,
    lows: Vec<u8>,
}

impl Model for Lows {
    ghost use Rattle.std.specs.Prelude.{List, ℕ};
    ghost use Rattle.base_lists.specs.price_table.Prices.{PriceBounds};

    ghost Value = { List ℕ };

    ghost view = { λ p. p.all.items };

    ghost invariant = { λ p. PriceBounds p.all.items p.lows.items };
}

impl Lows {
    /// No prices. It takes no memory.
    pub fn new(alloc: Global) -> Lows
        ensures { result ≡ [] }
    {
        Lows {
            all: Vec::new(alloc),
            lows: Vec::new(alloc),
        }
    }

    pub fn len(&self) -> usize
        ensures { result ≡ length self.now }
    {
        self.all.len()
    }

    pub fn get(&self, index: usize) -> u8
        requires { index < length self.now }
        ensures { result ≡ slice_index self.now index }
    {
        self.all[index]
    }

    /// The least index from one on whose price is at most the limit.
    pub fn first_from(&self, from: usize, limit: u8) -> Option<usize>
        requires { from ≤ length self.now }
        ensures { MatchOption result (AllAbove limit self.now from (length self.now)) (λ i. IsFirstPrice limit self.now from i) }
    {
        let end = self.all.len().min(from / BLOCK * BLOCK + BLOCK);
        match first_in(&self.all[from..end], limit) {
            Some(i) => Some(from + i),
            None => self.first_behind(from, limit),
        }
    }

    /// The least index from one on whose price is at most the limit, where none of its block is.
    fn first_behind(&self, from: usize, limit: u8) -> Option<usize>
        requires { Before limit self.now from (from / 128 + 1) }
        ensures { MatchOption result (AllAbove limit self.now from (length self.now)) (λ i. IsFirstPrice limit self.now from i) }
    {
        for block in from / BLOCK + 1..self.lows.len() {
            if self.lows[block] <= limit {
                let start = block * BLOCK;
                let end = self.all.len().min(start + BLOCK);
                if let Some(i) = first_in(&self.all[start..end], limit) {
                    return Some(start + i);
                }
            }
        }
        None
    }

    /// Sets the price at an index.
    pub fn set(&mut self, index: usize, price: u8)
        requires { index < length self.old }
        ensures { self.new ≡ slice_set self.old index price }
    {
        self.all[index] = price;
        let block = index / BLOCK;
        let start = block * BLOCK;
        let end = self.all.len().min(start + BLOCK);
        self.lows[block] = low_of(&self.all[start..end]);
    }

    /// Adds a price that nothing pays. Where memory runs out nothing changes.
    pub fn push(&mut self) -> Result<(), AllocError>
        ensures ok { OnOk result (self.new ≡ self.old ++ 255 ∷ []) }
        ensures err { OnErr result (self.new ≡ self.old) }
    {
        if self.all.len() % BLOCK == 0 {
            self.lows.reserve(1)?;
            self.all.push(NEVER)?;
            let _ = self.lows.push(NEVER);
        } else {
            self.all.push(NEVER)?;
        }
        Ok(())
    }
}
