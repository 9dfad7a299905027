//! Rounds over planes: of eight blocks at a time, one in each of eight vectors (FIPS 197, 5.1).
ghost use Rattle.std.specs.Prelude.{ℕ, List, map, bit_xor};
ghost use Rattle.spec_crypto.specs.ciphers.Field.{doubled};
ghost use Rattle.std.specs.Simd.Lanes.{zip2};
ghost use Rattle.crypto_ciphers.specs.aes_block.Rounds.{block_round, block_last};
ghost use Rattle.crypto_ciphers.specs.aes_block.Planes.{IsVector, AreVectors, ArePlanes, IsVectorSum, IsPicked, row_places, next_places};
ghost use Rattle.crypto_ciphers.specs.aes_block.Planes.{after_next_places, rows, next, after_next, mixed_by_pairs};

use crate::aes_block::circuit::substituted;
use std::simd::prelude::*;

/// The byte that ShiftRows brings to each place of its block.
const ROWS: [usize; 16] = [0, 5, 10, 15, 4, 9, 14, 3, 8, 13, 2, 7, 12, 1, 6, 11];

/// The byte below in the same column, and the second below.
const NEXT: [usize; 16] = [1, 2, 3, 0, 5, 6, 7, 4, 9, 10, 11, 8, 13, 14, 15, 12];

const AFTER_NEXT: [usize; 16] = [2, 3, 0, 1, 6, 7, 4, 5, 10, 11, 8, 9, 14, 15, 12, 13];

/// The sum of two vectors.
#[inline(always)]
fn sum_of(a: u8x16, b: u8x16) -> u8x16
    ensures { IsVectorSum a b result }
{
    a ^ b
}

#[inline(always)]
fn rows_in(a: u8x16) -> u8x16
    ensures { IsPicked row_places a result }
{
    a.swizzle(ROWS)
}

#[inline(always)]
fn next_in(a: u8x16) -> u8x16
    ensures { IsPicked next_places a result }
{
    a.swizzle(NEXT)
}

#[inline(always)]
fn after_next_in(a: u8x16) -> u8x16
    ensures { IsPicked after_next_places a result }
{
    a.swizzle(AFTER_NEXT)
}

/// The sums of two lists of vectors.
#[inline(always)]
pub(crate) fn sums_of(q: [u8x16; 8], p: [u8x16; 8]) -> [u8x16; 8]
    ensures { (s : List (List ℕ)) (f g : List ℕ → List ℕ) → AreVectors (map f s) → AreVectors (map g s)
        → ArePlanes q (map f s) → ArePlanes p (map g s) → ArePlanes result (map (λ v. zip2 bit_xor (f v) (g v)) s) }
{
    let a = sum_of(q[0], p[0]);
    let b = sum_of(q[1], p[1]);
    let c = sum_of(q[2], p[2]);
    let d = sum_of(q[3], p[3]);
    let e = sum_of(q[4], p[4]);
    let f = sum_of(q[5], p[5]);
    let g = sum_of(q[6], p[6]);
    let h = sum_of(q[7], p[7]);
    [a, b, c, d, e, f, g, h]
}

#[inline(always)]
fn rows_of(q: [u8x16; 8]) -> [u8x16; 8]
    ensures { (s : List (List ℕ)) (f : List ℕ → List ℕ) → AreVectors (map f s) → ArePlanes q (map f s)
        → ArePlanes result (map (λ v. rows (f v)) s) }
{
    let a = rows_in(q[0]);
    let b = rows_in(q[1]);
    let c = rows_in(q[2]);
    let d = rows_in(q[3]);
    let e = rows_in(q[4]);
    let f = rows_in(q[5]);
    let g = rows_in(q[6]);
    let h = rows_in(q[7]);
    [a, b, c, d, e, f, g, h]
}

#[inline(always)]
fn next_of(q: [u8x16; 8]) -> [u8x16; 8]
    ensures { (s : List (List ℕ)) (f : List ℕ → List ℕ) → AreVectors (map f s) → ArePlanes q (map f s)
        → ArePlanes result (map (λ v. next (f v)) s) }
{
    let a = next_in(q[0]);
    let b = next_in(q[1]);
    let c = next_in(q[2]);
    let d = next_in(q[3]);
    let e = next_in(q[4]);
    let f = next_in(q[5]);
    let g = next_in(q[6]);
    let h = next_in(q[7]);
    [a, b, c, d, e, f, g, h]
}

#[inline(always)]
fn after_next_of(q: [u8x16; 8]) -> [u8x16; 8]
    ensures { (s : List (List ℕ)) (f : List ℕ → List ℕ) → AreVectors (map f s) → ArePlanes q (map f s)
        → ArePlanes result (map (λ v. after_next (f v)) s) }
{
    let a = after_next_in(q[0]);
    let b = after_next_in(q[1]);
    let c = after_next_in(q[2]);
    let d = after_next_in(q[3]);
    let e = after_next_in(q[4]);
    let f = after_next_in(q[5]);
    let g = after_next_in(q[6]);
    let h = after_next_in(q[7]);
    [a, b, c, d, e, f, g, h]
}

/// x times each byte.
#[inline(always)]
fn doubled_of(q: [u8x16; 8]) -> [u8x16; 8]
    ensures { (s : List (List ℕ)) (f : List ℕ → List ℕ) → AreVectors (map f s) → ArePlanes q (map f s)
        → ArePlanes result (map (λ v. map doubled (f v)) s) }
{
    let b = sum_of(q[0], q[7]);
    let d = sum_of(q[2], q[7]);
    let e = sum_of(q[3], q[7]);
    [q[7], b, q[1], d, e, q[4], q[5], q[6]]
}

/// The columns mixed.
#[inline(always)]
fn mixed_of(q: [u8x16; 8]) -> [u8x16; 8]
    ensures { (s : List (List ℕ)) (f : List ℕ → List ℕ) → AreVectors (map f s) → ArePlanes q (map f s)
        → ArePlanes result (map (λ v. mixed_by_pairs (f v)) s) }
{
    let below = next_of(q);
    let pairs = sums_of(q, below);
    let twice = sums_of(doubled_of(pairs), below);
    sums_of(twice, after_next_of(pairs))
}

/// The states behind a whole round.
#[inline(always)]
pub(crate) fn round_of(q: [u8x16; 8], key: [u8x16; 8]) -> [u8x16; 8]
    ensures { (s : List (List ℕ)) (k : List ℕ) → AreVectors s → IsVector k → ArePlanes q s
        → ArePlanes key (map (λ v. k) s) → ArePlanes result (map (λ v. block_round v k) s) }
{
    sums_of(mixed_of(rows_of(substituted(&q))), key)
}

/// The states behind the last round.
#[inline(always)]
pub(crate) fn last_of(q: [u8x16; 8], key: [u8x16; 8]) -> [u8x16; 8]
    ensures { (s : List (List ℕ)) (k : List ℕ) → AreVectors s → IsVector k → ArePlanes q s
        → ArePlanes key (map (λ v. k) s) → ArePlanes result (map (λ v. block_last v k) s) }
{
    sums_of(rows_of(substituted(&q)), key)
}
