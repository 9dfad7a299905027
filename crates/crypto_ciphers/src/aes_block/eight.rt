//! The cipher over eight blocks at a time, by planes of their bits (FIPS 197, 5.1). No byte of a secret chooses a place in memory.
ghost use Rattle.std.specs.Prelude.{ℕ, ◌≡◌, ◌<◌, ◌≤◌, ◌⊎◌, ◌*◌, ◌+◌, [], ◌∷◌, List, map, length, slice_index_or};
ghost use Rattle.spec_crypto.specs.ciphers.Aes.{round_key, cipher};
ghost use Rattle.crypto_ciphers.specs.aes_block.Planes.{IsVector, AreVectors, ArePlanes, ArePlanesOfKey, ArePlaneKeys};

use crate::aes_block::columns::{block_of, key_of};
use crate::aes_block::planes::{last_of, round_of, sums_of};
use crate::aes_block::turning::turned;
use std::simd::prelude::*;

/// The planes of a round's key.
fn key_planes_of(words: &[[u8; 4]], round: usize) -> [u8x16; 8]
    requires { 4 * round + 4 ≤ length words.now }
    ensures { ArePlanesOfKey words.now round result }
{
    let key = block_of(key_of(words, round));
    let block = held(u8x16::from_array(key));
    turned(&[block; 8])
}

/// The planes of the key of each round.
pub(crate) fn plane_keys_of(words: &[[u8; 4]]) -> [[u8x16; 8]; 15]
    requires { (length words.now ≡ 44) ⊎ (length words.now ≡ 60) }
    ensures { ArePlaneKeys words.now result }
{
    let mut keys = [[u8x16::splat(0); 8]; 15];
    for r in 0..words.len() / 4 {
        let key = key_planes_of(words, r);
        keys[r] = key;
    }
    keys
}

/// The planes of eight blocks under the key, from those of the blocks.
#[inline(always)]
fn ciphered_planes(words: &[[u8; 4]], keys: &[[u8x16; 8]; 15], blocks: &[u8x16; 8]) -> [u8x16; 8]
    requires words { (length words.now ≡ 44) ⊎ (length words.now ≡ 60) }
    requires keys { ArePlaneKeys words.now keys.now }
    requires blocks { AreVectors blocks.now }
    ensures planes { ArePlanes result (map (λ v. cipher words.now v) blocks.now) }
    ensures bytes { (j : ℕ) → j < 8 → IsVector (cipher words.now (slice_index_or blocks.now j [])) }
{
    let rounds = words.len() / 4 - 1;
    let planes = turned(blocks);
    let mut q = sums_of(planes, keys[0]);
    for r in 1..rounds {
        let next = round_of(q, keys[r]);
        q = next;
    }
    last_of(q, keys[rounds])
}

/// A vector as it is, which tells that it has sixteen bytes.
#[inline(always)]
fn held(a: u8x16) -> u8x16
    ensures same { result ≡ a }
    ensures bytes { IsVector result }
{
    a
}

/// Eight blocks, each in a vector.
#[inline(always)]
pub(crate) fn eight_of(
    words: &[[u8; 4]],
    keys: &[[u8x16; 8]; 15],
    a: u8x16,
    b: u8x16,
    c: u8x16,
    d: u8x16,
    e: u8x16,
    f: u8x16,
    g: u8x16,
    h: u8x16,
) -> [u8x16; 8]
    requires words { (length words.now ≡ 44) ⊎ (length words.now ≡ 60) }
    requires keys { ArePlaneKeys words.now keys.now }
    ensures { result ≡ map (λ v. cipher words.now v) (a ∷ b ∷ c ∷ d ∷ e ∷ f ∷ g ∷ h ∷ []) }
{
    let blocks = [a, b, c, d, e, f, g, h];
    let ended = ciphered_planes(words, keys, &blocks);
    let w = turned(&ended);
    let out_a = held(w[0]);
    let out_b = held(w[1]);
    let out_c = held(w[2]);
    let out_d = held(w[3]);
    let out_e = held(w[4]);
    let out_f = held(w[5]);
    let out_g = held(w[6]);
    let out_h = held(w[7]);
    [out_a, out_b, out_c, out_d, out_e, out_f, out_g, out_h]
}

/// Eight blocks, as two runs of four.
#[derive(Clone, Copy)]
pub(crate) struct TwoRuns {
    pub(crate) first: [[u8; 16]; 4],
    pub(crate) second: [[u8; 16]; 4],
}

/// A run of four vectors, as bytes.
#[inline(always)]
fn run_of(a: u8x16, b: u8x16, c: u8x16, d: u8x16) -> [[u8; 16]; 4]
    ensures { result ≡ a ∷ b ∷ c ∷ d ∷ [] }
{
    [a.to_array(), b.to_array(), c.to_array(), d.to_array()]
}

/// Eight blocks under the key.
pub(crate) fn runs_of(
    words: &[[u8; 4]],
    keys: &[[u8x16; 8]; 15],
    a: &[u8; 16],
    b: &[u8; 16],
    c: &[u8; 16],
    d: &[u8; 16],
    e: &[u8; 16],
    f: &[u8; 16],
    g: &[u8; 16],
    h: &[u8; 16],
) -> TwoRuns
    requires words { (length words.now ≡ 44) ⊎ (length words.now ≡ 60) }
    requires keys { ArePlaneKeys words.now keys.now }
    ensures first { result.first ≡ cipher words.now a.now ∷ cipher words.now b.now ∷ cipher words.now c.now ∷ cipher words.now d.now ∷ [] }
    ensures second { result.second
        ≡ cipher words.now e.now ∷ cipher words.now f.now ∷ cipher words.now g.now ∷ cipher words.now h.now ∷ [] }
{
    let w = eight_of(
        words,
        keys,
        u8x16::from_array(*a),
        u8x16::from_array(*b),
        u8x16::from_array(*c),
        u8x16::from_array(*d),
        u8x16::from_array(*e),
        u8x16::from_array(*f),
        u8x16::from_array(*g),
        u8x16::from_array(*h),
    );
    let first = run_of(w[0], w[1], w[2], w[3]);
    let second = run_of(w[4], w[5], w[6], w[7]);
    TwoRuns { first, second }
}
