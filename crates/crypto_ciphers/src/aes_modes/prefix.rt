//! CCM's additional data as it is chained: its length in 2, 6 or 10 bytes and then itself (SP 800-38C, A.2.2).
ghost use Rattle.std.specs.Prelude.{◌≡◌, ◌≤◌, ◌<◌, ◌+◌, ◌*◌, ◌/◌, ◌%◌, ◌^◌, ◌++◌, length, take, slice_index};
ghost use Rattle.spec_crypto.specs.ciphers.Aes.{block_sum};
ghost use Rattle.spec_crypto.specs.ciphers.Blocks.{block_at, block_count, chained};
ghost use Rattle.spec_crypto.specs.ciphers.Ccm.{length_prefix, prefixed};

use crate::aes_block::{Aes, block_sum_of};
use crate::aes_modes::blocks::enciphered;

/// Byte `k` of n, counted from the lowest.
#[inline(always)]
fn low_byte(n: usize, k: u32) -> u8
    requires { k < 8 }
    ensures { result ≡ n / 2 ^ (8 * k) % 256 }
{
    ((n >> (8 * k)) % 256) as u8
}

// Ten bytes and a count in place of a list, because sealing in place takes no memory.
/// The length's bytes, and how many they are.
#[tactic(auto, unfolding(spec_crypto::specs::ciphers::Ccm::length_prefix))]
fn length_prefix_of(count: usize) -> ([u8; 10], usize)
    ensures prefix { take result.1 result.0 ≡ length_prefix count }
    ensures short { result.1 ≤ 10 }
{
    let n = count;
    if n < 65_280 {
        ([low_byte(n, 1), low_byte(n, 0), 0, 0, 0, 0, 0, 0, 0, 0], 2)
    } else if n < 0x1_0000_0000 {
        (
            [
                255,
                254,
                low_byte(n, 3),
                low_byte(n, 2),
                low_byte(n, 1),
                low_byte(n, 0),
                0,
                0,
                0,
                0,
            ],
            6,
        )
    } else {
        (
            [
                255,
                255,
                low_byte(n, 7),
                low_byte(n, 6),
                low_byte(n, 5),
                low_byte(n, 4),
                low_byte(n, 3),
                low_byte(n, 2),
                low_byte(n, 1),
                low_byte(n, 0),
            ],
            10,
        )
    }
}

/// Byte i of two lists one behind the other, and zero past them.
fn joined_byte(front: &[u8], back: &[u8], i: usize) -> u8
    ensures { result ≡ slice_index (front.now ++ back.now) i }
{
    if i < front.len() {
        front[i]
    } else if i - front.len() < back.len() {
        back[i - front.len()]
    } else {
        0
    }
}

/// Block i of two lists one behind the other.
#[tactic(auto, unfolding(spec_crypto::specs::ciphers::Blocks::block_at))]
fn joined_block_of(front: &[u8], back: &[u8], i: usize) -> [u8; 16]
    requires place { 16 * i ≤ length front.now + length back.now }
    requires front { length front.now ≤ 10 }
    ensures { result ≡ block_at (front.now ++ back.now) i }
{
    let at = 16 * i;
    [
        joined_byte(front, back, at),
        joined_byte(front, back, at + 1),
        joined_byte(front, back, at + 2),
        joined_byte(front, back, at + 3),
        joined_byte(front, back, at + 4),
        joined_byte(front, back, at + 5),
        joined_byte(front, back, at + 6),
        joined_byte(front, back, at + 7),
        joined_byte(front, back, at + 8),
        joined_byte(front, back, at + 9),
        joined_byte(front, back, at + 10),
        joined_byte(front, back, at + 11),
        joined_byte(front, back, at + 12),
        joined_byte(front, back, at + 13),
        joined_byte(front, back, at + 14),
        joined_byte(front, back, at + 15),
    ]
}

/// The chain from `start` over two lists one behind the other.
fn joined_chain_of(aes: &Aes, start: &[u8; 16], front: &[u8], back: &[u8]) -> [u8; 16]
    requires { length front.now ≤ 10 }
    ensures { result ≡ chained aes.now start.now (front.now ++ back.now) (block_count (front.now ++ back.now)) }
{
    let mut s = *start;
    let blocks = (front.len() + back.len()).div_ceil(16);
    for i in 0..blocks {
        s = enciphered(aes, &block_sum_of(&s, &joined_block_of(front, back, i)));
    }
    s
}

/// The chain from `start` over the additional data.
#[tactic(auto, unfolding(spec_crypto::specs::ciphers::Ccm::prefixed, spec_crypto::specs::ciphers::Blocks::chained))]
pub(crate) fn added_chain_of(aes: &Aes, start: &[u8; 16], added: &[u8]) -> [u8; 16]
    ensures { result ≡ chained aes.now start.now (prefixed added.now) (block_count (prefixed added.now)) }
{
    if added.is_empty() {
        return *start;
    }
    let (prefix, count) = length_prefix_of(added.len());
    joined_chain_of(aes, start, &prefix[..count], added)
}
