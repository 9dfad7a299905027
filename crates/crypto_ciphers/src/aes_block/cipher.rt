//! The cipher (FIPS 197, 5.1).
ghost use Rattle.std.specs.Prelude.{◌≡◌, ◌≤◌, ◌⊎◌, ◌*◌, ◌+◌, ◌-◌, [], ◌∷◌, length};
ghost use Rattle.spec_crypto.specs.ciphers.Aes.{replaced, mixed_columns, block_sum, round_key, after, cipher, rounds, schedule};
ghost use Rattle.crypto_ciphers.specs.aes_block.Columns.{state};
ghost use Rattle.crypto_ciphers.specs.aes_block.Fronts.{IsBlockFront};
ghost use Rattle.crypto_ciphers.specs.aes_block.Planes.{ArePlaneKeys};

use crate::aes_block::columns::{
    Columns, block_of, columns_of, key_of, last_round_of, round_of, sum_of,
};
use crate::aes_block::eight::{TwoRuns, plane_keys_of, runs_of};
use crate::aes_block::front::{Front, cipher_behind, front_of};
use crate::aes_block::key::expanded_of;
use std::marker::Model;
use std::simd::prelude::*;

/// The state behind one round more.
#[inline(always)]
pub(crate) fn next_of(words: &[[u8; 4]], s: Columns, round: usize) -> Columns
    requires { 4 * round + 4 ≤ length words.now }
    ensures { state result.a result.b result.c result.d ≡ block_sum (mixed_columns (replaced (state s.a s.b s.c s.d)))
        (round_key words.now round) }
{
    round_of(s, key_of(words, round))
}

/// The state behind pairs of whole rounds. A loop over single rounds takes a twentieth more time.
#[inline(always)]
fn after_pairs(words: &[[u8; 4]], block: &[u8; 16], pairs: usize) -> Columns
    requires { 8 * pairs + 4 ≤ length words.now }
    ensures { state result.a result.b result.c result.d ≡ after words.now block.now (2 * pairs) }
{
    let mut s = sum_of(columns_of(block), key_of(words, 0));
    // All rounds in a row would be quicker, but the toolchain drops `inline(always)` from so large a function.
    for i in 0..pairs {
        let between = next_of(words, s, 2 * i + 1);
        s = next_of(words, between, 2 * i + 2);
    }
    s
}

/// The last two rounds, of which the last mixes no columns, behind an even number of them.
#[inline(always)]
pub(crate) fn ended_of(words: &[[u8; 4]], even: Columns) -> [u8; 16]
    requires { (length words.now ≡ 44) ⊎ (length words.now ≡ 60) }
    ensures { result ≡ block_sum (replaced (block_sum (mixed_columns (replaced (state even.a even.b even.c even.d)))
        (round_key words.now (rounds words.now - 1)))) (round_key words.now (rounds words.now)) }
{
    let rounds = words.len() / 4 - 1;
    let odd = next_of(words, even, rounds - 1);
    block_of(last_round_of(odd, key_of(words, rounds)))
}

#[inline(always)]
fn cipher_of(words: &[[u8; 4]], block: &[u8; 16]) -> [u8; 16]
    requires { (length words.now ≡ 44) ⊎ (length words.now ≡ 60) }
    ensures { result ≡ cipher words.now block.now }
{
    let rounds = words.len() / 4 - 1;
    let even = after_pairs(words, block, rounds / 2 - 1);
    ended_of(words, even)
}

/// A key, expanded. A contract sees the list of the expanded key's words, of four bytes each.
#[derive(Drop)]
pub struct Aes {
    words: [[u8; 4]; 60],
    count: usize,
}

impl Model for Aes {
    ghost use Rattle.std.specs.Prelude.{List, ℕ, ◌≡◌, ◌⊎◌, take};

    ghost Value = { List (List ℕ) };

    ghost view = { λ a. take a.count a.words };

    ghost invariant = { λ a. (a.count ≡ 44) ⊎ (a.count ≡ 60) };
}

impl Aes {
    /// A key of 128 bits: 10 rounds.
    pub fn new_128(key: &[u8; 16]) -> Aes
        ensures { result ≡ schedule 4 key.now }
    {
        Aes {
            words: expanded_of(key, 4, 44),
            count: 44,
        }
    }

    /// A key of 256 bits: 14 rounds.
    pub fn new_256(key: &[u8; 32]) -> Aes
        ensures { result ≡ schedule 8 key.now }
    {
        Aes {
            words: expanded_of(key, 8, 60),
            count: 60,
        }
    }

    /// The block under the key.
    #[inline(always)]
    pub fn encrypt_block(&self, block: &[u8; 16]) -> [u8; 16]
        ensures { result ≡ cipher self.now block.now }
    {
        cipher_of(&self.words[..self.count], block)
    }

    /// What the first two rounds make of the block but for its last byte.
    pub fn front_of(&self, block: &[u8; 16]) -> Front
        ensures { IsBlockFront self.now block.now result }
    {
        front_of(&self.words[..self.count], block)
    }

    /// The block under the key, from a front of it: of this block, or of one that differs in its last byte alone.
    #[inline(always)]
    pub fn encrypt_behind(&self, front: &Front, block: &[u8; 16]) -> [u8; 16]
        requires { IsBlockFront self.now block.now front.now }
        ensures { result ≡ cipher self.now block.now }
    {
        cipher_behind(&self.words[..self.count], front, block)
    }

    /// The planes of the key of each round.
    pub(crate) fn plane_keys(&self) -> [[u8x16; 8]; 15]
        ensures { ArePlaneKeys self.now result }
    {
        plane_keys_of(&self.words[..self.count])
    }

    /// Eight blocks under the key, as two runs of four.
    pub(crate) fn encrypt_eight(
        &self,
        keys: &[[u8x16; 8]; 15],
        a: &[u8; 16],
        b: &[u8; 16],
        c: &[u8; 16],
        d: &[u8; 16],
        e: &[u8; 16],
        f: &[u8; 16],
        g: &[u8; 16],
        h: &[u8; 16],
    ) -> TwoRuns
        requires { ArePlaneKeys self.now keys.now }
        ensures first { result.first ≡ cipher self.now a.now ∷ cipher self.now b.now ∷ cipher self.now c.now ∷ cipher self.now d.now ∷ [] }
        ensures second { result.second
            ≡ cipher self.now e.now ∷ cipher self.now f.now ∷ cipher self.now g.now ∷ cipher self.now h.now ∷ [] }
    {
        runs_of(&self.words[..self.count], keys, a, b, c, d, e, f, g, h)
    }
}
