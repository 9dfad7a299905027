//! Gates over planes of bits.
ghost use Rattle.std.specs.Prelude.{ℕ, List, ◌<◌, ◌-◌, ◌^◌, bit_and, bit_xor};
ghost use Rattle.crypto_ciphers.specs.aes_block.Planes.{lane_at, Tells};

use std::simd::prelude::*;

/// Where just one of two bits is set.
#[inline(always)]
pub(crate) fn odd(a: u8x16, b: u8x16) -> u8x16
    ensures { (s : List (List ℕ)) (p q : ℕ) → Tells s a p → Tells s b q → Tells s result (bit_xor p q) }
{
    a ^ b
}

/// Where both bits are set.
#[inline(always)]
pub(crate) fn both(a: u8x16, b: u8x16) -> u8x16
    ensures { (s : List (List ℕ)) (p q : ℕ) → Tells s a p → Tells s b q → Tells s result (bit_and p q) }
{
    a & b
}

/// Where both bits are the same.
#[inline(always)]
pub(crate) fn even(a: u8x16, b: u8x16) -> u8x16
    ensures { (s : List (List ℕ)) → ((j i : ℕ) → j < 8 → lane_at s j i < 256) → (p q : ℕ) → Tells s a p → Tells s b q
        → Tells s result (bit_xor (bit_xor p q) (2 ^ 256 - 1)) }
{
    a ^ b ^ u8x16::splat(255)
}
