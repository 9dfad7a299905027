//! What the modes share: blocks of bytes, the chain over them, masking block by block, and the comparison of tags.
ghost use Rattle.std.specs.Prelude.{ℕ, List, ◌≡◌, ◌≤◌, ◌<◌, ◌*◌, ◌+◌, ◌-◌, ◌/◌, ◌++◌, ◌↔◌, IsTrue, length, take, drop, min, slice_index};
ghost use Rattle.std.specs.Prelude.{OnOk};
ghost use Rattle.crypto_ciphers.specs.aes_block.Fronts.{IsBlockFront};
ghost use Rattle.crypto_ciphers.specs.aes_modes.InPlace.{masked_to, run_of};
ghost use Rattle.spec_crypto.specs.ciphers.Aes.{block_sum, cipher};
ghost use Rattle.spec_crypto.specs.ciphers.Blocks.{block_at, block_count, chained};

use crate::aes_block::{Aes, Front, block_sum_of};

/// A block under the key, outside of the loops over a message.
#[inline(never)]
pub(crate) fn enciphered(aes: &Aes, block: &[u8; 16]) -> [u8; 16]
    ensures { result ≡ cipher aes.now block.now }
{
    aes.encrypt_block(block)
}

/// A front of the block, where the one that there is serves as long as the block's last byte isn't 0.
#[inline(always)]
pub(crate) fn front_at(aes: &Aes, block: &[u8; 16], front: Front) -> Front
    requires { (slice_index block.now 15 ≡ 0 → ⊥) → IsBlockFront aes.now block.now front }
    ensures { IsBlockFront aes.now block.now result }
{
    if block[15] == 0 {
        aes.front_of(block)
    } else {
        front
    }
}

/// How many blocks the bytes fill, the last one perhaps in part.
pub(crate) fn block_count_of(m: &[u8]) -> usize
    ensures { result ≡ block_count m.now }
{
    m.len().div_ceil(16)
}

#[inline(always)]
fn byte_or_zero(m: &[u8], i: usize) -> u8
    ensures { result ≡ slice_index m.now i }
{
    if i < m.len() { m[i] } else { 0 }
}

#[inline(always)]
#[tactic(auto, unfolding(spec_crypto::specs::ciphers::Blocks::block_at))]
fn whole_block_of(m: &[u8], i: usize) -> [u8; 16]
    requires { 16 * i + 16 ≤ length m.now }
    ensures { result ≡ block_at m.now i }
{
    [
        m[16 * i],
        m[16 * i + 1],
        m[16 * i + 2],
        m[16 * i + 3],
        m[16 * i + 4],
        m[16 * i + 5],
        m[16 * i + 6],
        m[16 * i + 7],
        m[16 * i + 8],
        m[16 * i + 9],
        m[16 * i + 10],
        m[16 * i + 11],
        m[16 * i + 12],
        m[16 * i + 13],
        m[16 * i + 14],
        m[16 * i + 15],
    ]
}

#[tactic(auto, unfolding(spec_crypto::specs::ciphers::Blocks::block_at))]
fn part_of_block_of(m: &[u8], i: usize) -> [u8; 16]
    requires { 16 * i ≤ length m.now }
    ensures { result ≡ block_at m.now i }
{
    let rest = 16 * i;
    [
        byte_or_zero(m, rest),
        byte_or_zero(m, rest + 1),
        byte_or_zero(m, rest + 2),
        byte_or_zero(m, rest + 3),
        byte_or_zero(m, rest + 4),
        byte_or_zero(m, rest + 5),
        byte_or_zero(m, rest + 6),
        byte_or_zero(m, rest + 7),
        byte_or_zero(m, rest + 8),
        byte_or_zero(m, rest + 9),
        byte_or_zero(m, rest + 10),
        byte_or_zero(m, rest + 11),
        byte_or_zero(m, rest + 12),
        byte_or_zero(m, rest + 13),
        byte_or_zero(m, rest + 14),
        byte_or_zero(m, rest + 15),
    ]
}

/// Block i, filled with zeros where the bytes end.
#[inline(always)]
pub(crate) fn block_of(m: &[u8], i: usize) -> [u8; 16]
    requires { 16 * i ≤ length m.now }
    ensures { result ≡ block_at m.now i }
{
    if m.len() - 16 * i >= 16 {
        whole_block_of(m, i)
    } else {
        part_of_block_of(m, i)
    }
}

/// The chain from `start` over whole blocks.
fn whole_chain_of(aes: &Aes, start: &[u8; 16], m: &[u8], blocks: usize) -> [u8; 16]
    requires { 16 * blocks ≤ length m.now }
    ensures { result ≡ chained aes.now start.now m.now blocks }
{
    let mut s = u128::from_le_bytes(*start);
    for i in 0..blocks {
        let block = whole_block_of(m, i);
        let sum = block_sum_of(&s.to_le_bytes(), &block);
        s = u128::from_le_bytes(aes.encrypt_block(&sum));
    }
    s.to_le_bytes()
}

/// The chain from `start` over the first blocks.
pub(crate) fn chain_of(aes: &Aes, start: &[u8; 16], m: &[u8], blocks: usize) -> [u8; 16]
    requires { 16 * blocks ≤ length m.now + 15 }
    ensures { result ≡ chained aes.now start.now m.now blocks }
{
    let whole = m.len() / 16;
    if blocks <= whole {
        return whole_chain_of(aes, start, m, blocks);
    }
    let s = whole_chain_of(aes, start, m, whole);
    enciphered(aes, &block_sum_of(&s, &part_of_block_of(m, whole)))
}

/// Masks a whole block i of the text where it stands, under `key`.
#[inline(always)]
fn mask_whole_block(text: &mut [u8], i: usize, key: &[u8; 16])
    requires { 16 * i + 16 ≤ length text.old }
    ensures { text.new ≡ take (16 * i) text.old ++ (take 16 (block_sum (block_at text.old i) key.now) ++ drop (16 * i +
        16) text.old) }
{
    let masked = block_sum_of(&whole_block_of(text, i), key);
    text[16 * i..16 * i + 16].copy_from_slice(&masked[..16]);
}

/// Masks the rest of a text, which is no whole block.
fn mask_part(text: &mut [u8], i: usize, key: &[u8; 16])
    requires before { 16 * i ≤ length text.old }
    requires part { length text.old < 16 * i + 16 }
    ensures { text.new ≡ take (16 * i) text.old ++ (take (length text.old - 16 * i) (block_sum (block_at text.old i)
        key.now) ++ drop (16 * i + (length text.old - 16 * i)) text.old) }
{
    let masked = block_sum_of(&part_of_block_of(text, i), key);
    let rest = text.len() - 16 * i;
    text[16 * i..16 * i + rest].copy_from_slice(&masked[..rest]);
}

/// Masks block i of the text where it stands, as far as the text goes, under `key`.
#[inline(always)]
pub(crate) fn mask_block(text: &mut [u8], i: usize, key: &[u8; 16])
    requires { 16 * i ≤ length text.old }
    ensures { text.new ≡ take (16 * i) text.old ++ (take (min (length text.old - 16 * i) 16) (block_sum (block_at
        text.old i) key.now) ++ drop (16 * i + min (length text.old - 16 * i) 16) text.old) }
{
    if text.len() - 16 * i >= 16 {
        mask_whole_block(text, i, key)
    } else {
        mask_part(text, i, key)
    }
}

/// Masks run i of the text, four whole blocks, where it stands, under these four.
#[inline(always)]
pub(crate) fn mask_run(text: &mut [u8], i: usize, keys: &[[u8; 16]; 4])
    requires { 64 * i + 64 ≤ length text.old }
    ensures { (ws : List (List ℕ)) (f : ℕ → List ℕ) (old : List ℕ) → text.old ≡ masked_to ws f old (64 * i)
        → keys.now ≡ run_of ws f (4 * i) → text.new ≡ masked_to ws f old (64 * (i + 1)) }
{
    mask_block(text, 4 * i, &keys[0]);
    mask_block(text, 4 * i + 1, &keys[1]);
    mask_block(text, 4 * i + 2, &keys[2]);
    mask_block(text, 4 * i + 3, &keys[3]);
}

/// Whether two tags of one length are the same. It takes the same time whatever they are.
///
/// All differences are gathered, and the result is compared once: the work is the same whatever the bytes are. No contract
/// can say so, and a loop that leaves at the first difference would prove as well, so the body is to keep this form. Whoever
/// sends tags could else learn from the time how many of their bytes were right.
pub fn is_same(a: &[u8], b: &[u8]) -> bool
    requires { length a.now ≡ length b.now }
    ensures { IsTrue result ↔ (a.now ≡ b.now) }
{
    let mut differing = 0;
    for i in 0..a.len() {
        differing |= a[i] ^ b[i];
    }
    differing == 0
}
