//! CCM with a nonce of 7 to 13 bytes and a tag of 4, 6 .. 16 (SP 800-38C, with the formatting of its appendix A).
ghost use Rattle.std.specs.Prelude.{◌≡◌, ◌<◌, ◌≤◌, ◌+◌, ◌-◌, ◌*◌, ◌^◌, ◌↔◌, IsTrue, length, take, nat_le, ◌==◌};
ghost use Rattle.std.specs.Prelude.{if◌then◌else◌, slice_index, ◌++◌, IfOk};
ghost use Rattle.crypto_ciphers.specs.aes_modes.Counters.{number_block};
ghost use Rattle.crypto_ciphers.specs.aes_modes.InPlace.{OpensInPlace, masked_to};
ghost use Rattle.spec_crypto.specs.ciphers.Blocks.{big_byte};
ghost use Rattle.spec_crypto.specs.ciphers.Aes.{block_sum};
ghost use Rattle.spec_crypto.specs.ciphers.Ccm.{nonce_block, flags, counter_block, mac, ciphertext, tag_of, sealed, IsFit, Opens};

use crate::aes_block::{Aes, block_sum_of};
use crate::aes_modes::blocks::{
    block_count_of, block_of, chain_of, enciphered, front_at, is_same, mask_block, mask_run,
};
use crate::aes_modes::prefix::added_chain_of;
use std::alloc::{AllocError, Global};
use wire_bytes::Bytes;

#[inline(always)]
fn nonce_byte(first: u8, nonce: &[u8], n: u64, k: usize) -> u8
    requires long { 7 ≤ length nonce.now }
    requires place { k ≤ 15 }
    ensures { result ≡ (if k == 0 then first else if nat_le k (length nonce.now) then slice_index nonce.now (k - 1) else
        big_byte (15 - length nonce.now) n (k - 1 - length nonce.now)) }
{
    if k == 0 {
        first
    } else if k <= nonce.len() {
        nonce[k - 1]
    } else {
        ((n >> (8 * (15 - k) as u32)) % 256) as u8
    }
}

/// A first byte, the nonce, and a number in the bytes behind it.
#[tactic(auto, unfolding(spec_crypto::specs::ciphers::Ccm::nonce_block))]
fn nonce_block_of(first: u8, nonce: &[u8], n: u64) -> [u8; 16]
    requires { 7 ≤ length nonce.now }
    ensures { result ≡ nonce_block first nonce.now n }
{
    [
        nonce_byte(first, nonce, n, 0),
        nonce_byte(first, nonce, n, 1),
        nonce_byte(first, nonce, n, 2),
        nonce_byte(first, nonce, n, 3),
        nonce_byte(first, nonce, n, 4),
        nonce_byte(first, nonce, n, 5),
        nonce_byte(first, nonce, n, 6),
        nonce_byte(first, nonce, n, 7),
        nonce_byte(first, nonce, n, 8),
        nonce_byte(first, nonce, n, 9),
        nonce_byte(first, nonce, n, 10),
        nonce_byte(first, nonce, n, 11),
        nonce_byte(first, nonce, n, 12),
        nonce_byte(first, nonce, n, 13),
        nonce_byte(first, nonce, n, 14),
        nonce_byte(first, nonce, n, 15),
    ]
}

fn flags_of(nonce: &[u8], added: &[u8], tag: usize) -> u8
    requires long { 7 ≤ length nonce.now }
    requires short { length nonce.now ≤ 13 }
    requires tag { tag ≤ 16 }
    ensures { result ≡ flags nonce.now added.now tag }
{
    let has_added = if added.is_empty() { 0 } else { 64 };
    let tag_code = tag.saturating_sub(2) / 2;
    (has_added + 8 * tag_code + (14 - nonce.len())) as u8
}

fn counter_block_of(nonce: &[u8], i: usize) -> [u8; 16]
    requires long { 7 ≤ length nonce.now }
    requires short { length nonce.now ≤ 13 }
    ensures { result ≡ counter_block nonce.now i }
{
    nonce_block_of((14 - nonce.len()) as u8, nonce, i as u64)
}

/// Whether CCM's formatting has room for these lengths: a nonce of 7 to 13 bytes, a tag of 4, 6 .. 16, and a
/// text whose length fits into 15 bytes less the nonce's (SP 800-38C, A.1).
pub fn ccm_fits(nonce: &[u8], text: usize, tag: usize) -> bool
    ensures { IsTrue result ↔ IsFit nonce.now text tag }
{
    if nonce.len() < 7 || nonce.len() > 13 || tag < 4 || tag > 16 || tag % 2 != 0 {
        return false;
    }
    (text as u128) < 1 << (8 * (15 - nonce.len()))
}

/// The chain over the first block, the additional data and the text.
fn mac_of(aes: &Aes, nonce: &[u8], added: &[u8], text: &[u8], tag: usize) -> [u8; 16]
    requires long { 7 ≤ length nonce.now }
    requires short { length nonce.now ≤ 13 }
    requires tag { tag ≤ 16 }
    ensures { result ≡ mac aes.now nonce.now added.now text.now tag }
{
    let first = nonce_block_of(flags_of(nonce, added, tag), nonce, text.len() as u64);
    let behind_added = added_chain_of(aes, &enciphered(aes, &first), added);
    chain_of(aes, &behind_added, text, block_count_of(text))
}

/// A block that begins with the tag.
fn tag_block_of(aes: &Aes, nonce: &[u8], added: &[u8], text: &[u8], tag: usize) -> [u8; 16]
    requires long { 7 ≤ length nonce.now }
    requires short { length nonce.now ≤ 13 }
    requires tag { tag ≤ 16 }
    ensures { take tag result ≡ tag_of aes.now nonce.now added.now text.now tag }
{
    let mac = mac_of(aes, nonce, added, text, tag);
    let mask = enciphered(aes, &counter_block_of(nonce, 0));
    block_sum_of(&block_of(&mac, 0), &mask)
}

/// Counter block i by that of number 0, in whose last bytes the number then stands.
#[inline(always)]
fn counted(zero: &[u8; 16], i: u64) -> [u8; 16]
    ensures { result ≡ block_sum zero.now (number_block i) }
{
    let n = i.to_be_bytes();
    let number = [
        0, 0, 0, 0, 0, 0, 0, 0, n[0], n[1], n[2], n[3], n[4], n[5], n[6], n[7],
    ];
    block_sum_of(zero, &number)
}

/// Masks the first pairs of runs of a text, eight blocks each, where they stand, under the counter blocks from 1 on, by that
/// of number 0.
fn mask_runs(aes: &Aes, nonce: &[u8], zero: &[u8; 16], text: &mut [u8], pairs: usize)
    requires long { 7 ≤ length nonce.now }
    requires short { length nonce.now ≤ 13 }
    requires zero { zero.now ≡ counter_block nonce.now 0 }
    requires fits { length text.old < 256 ^ (15 - length nonce.now) }
    requires runs { 64 * (2 * pairs) ≤ length text.old }
    ensures { text.new ≡ masked_to aes.now (λ i. counter_block nonce.now (i + 1)) text.old (64 * (2 * pairs)) }
{
    // The planes of the keys cost as much as a few blocks.
    if pairs == 0 {
        return;
    }
    let keys = aes.plane_keys();
    for i in 0..pairs {
        let eight = aes.encrypt_eight(
            &keys,
            &counted(zero, (4 * (2 * i)) as u64 + 1),
            &counted(zero, (4 * (2 * i) + 1) as u64 + 1),
            &counted(zero, (4 * (2 * i) + 2) as u64 + 1),
            &counted(zero, (4 * (2 * i) + 3) as u64 + 1),
            &counted(zero, (4 * (2 * i + 1)) as u64 + 1),
            &counted(zero, (4 * (2 * i + 1) + 1) as u64 + 1),
            &counted(zero, (4 * (2 * i + 1) + 2) as u64 + 1),
            &counted(zero, (4 * (2 * i + 1) + 3) as u64 + 1),
        );
        mask_run(text, 2 * i, &eight.first);
        mask_run(text, 2 * i + 1, &eight.second);
    }
}

/// Masks a text where it stands, under the counter blocks from 1 on: eight blocks at a time, and the rest by a front of a
/// counter block, which serves until the number's last byte is 0 again.
fn mask(aes: &Aes, nonce: &[u8], text: &mut [u8])
    requires long { 7 ≤ length nonce.now }
    requires short { length nonce.now ≤ 13 }
    requires fits { length text.old < 256 ^ (15 - length nonce.now) }
    ensures { text.new ≡ ciphertext aes.now nonce.now text.old }
{
    let zero = counter_block_of(nonce, 0);
    let pairs = text.len() / 128;
    mask_runs(aes, nonce, &zero, text, pairs);
    let runs = 2 * pairs;
    let mut front = aes.front_of(&counted(&zero, (4 * runs) as u64));
    for i in 4 * runs..block_count_of(text) {
        let block = counted(&zero, i as u64 + 1);
        front = front_at(aes, &block, front);
        mask_block(text, i, &aes.encrypt_behind(&front, &block));
    }
}

/// The text under the counter blocks from 1 on, in a vector with `room` bytes more.
fn ciphertext_of(
    alloc: Global,
    aes: &Aes,
    nonce: &[u8],
    text: &[u8],
    room: usize,
) -> Result<Vec<u8>, AllocError>
    requires long { 7 ≤ length nonce.now }
    requires short { length nonce.now ≤ 13 }
    requires fits { length text.now < 256 ^ (15 - length nonce.now) }
    requires room { room ≤ 16 }
    ensures { IfOk result (λ v. v.items ≡ ciphertext aes.now nonce.now text.now) }
{
    let mut out = Vec::with_capacity(alloc, text.len() + room)?;
    out.extend_from_slice(text)?;
    mask(aes, nonce, out.as_mut_slice());
    Ok(out)
}

/// The text, sealed together with the additional data: the ciphertext and then the tag of `tag` bytes
/// (SP 800-38C, 6.1). Seal nothing twice under one key and nonce.
#[tactic(auto, unfolding(spec_crypto::specs::ciphers::Ccm::sealed))]
pub fn ccm_seal(
    alloc: Global,
    aes: &Aes,
    nonce: &[u8],
    added: &[u8],
    text: &[u8],
    tag: usize,
) -> Result<Bytes, AllocError>
    requires { IsFit nonce.now (length text.now) tag }
    ensures { IfOk result (λ b. b ≡ sealed aes.now nonce.now added.now text.now tag) }
{
    let mut out = ciphertext_of(alloc, aes, nonce, text, tag)?;
    let block = tag_block_of(aes, nonce, added, text, tag);
    out.extend_from_slice(&block[..tag])?;
    Ok(Bytes::from_vec(out))
}

/// The text that was sealed, or `None` exactly where there are fewer than `tag` bytes or the tag is not
/// the one of the text and the additional data (SP 800-38C, 6.2).
pub fn ccm_open(
    alloc: Global,
    aes: &Aes,
    nonce: &[u8],
    added: &[u8],
    sealed: &[u8],
    tag: usize,
) -> Result<Option<Bytes>, AllocError>
    requires { IsFit nonce.now (length sealed.now - tag) tag }
    ensures { IfOk result (λ o. Opens aes.now nonce.now added.now sealed.now tag o) }
{
    if sealed.len() < tag {
        return Ok(None);
    }
    let count = sealed.len() - tag;
    let text = ciphertext_of(alloc, aes, nonce, &sealed[..count], 0)?;
    let block = tag_block_of(aes, nonce, added, &text, tag);
    if !is_same(&block[..tag], &sealed[count..]) {
        return Ok(None);
    }
    Ok(Some(Bytes::from_vec(text)))
}

/// Seals a text where it stands, together with the additional data, and gives a block that begins with the tag of `tag`
/// bytes. It takes no memory (SP 800-38C, 6.1). Seal nothing twice under one key and nonce.
pub fn ccm_seal_in_place(
    aes: &Aes,
    nonce: &[u8],
    added: &[u8],
    text: &mut [u8],
    tag: usize,
) -> [u8; 16]
    requires { IsFit nonce.now (length text.old) tag }
    ensures hidden { text.new ≡ ciphertext aes.now nonce.now text.old }
    ensures tag { take tag result ≡ tag_of aes.now nonce.now added.now text.old tag }
{
    let block = tag_block_of(aes, nonce, added, text, tag);
    mask(aes, nonce, text);
    block
}

/// Whether the tag is the one of the text under a ciphertext and of the additional data: the ciphertext then becomes
/// its text, and else stays as it was. It opens what `ccm_open` opens, and takes no memory (SP 800-38C, 6.2). Where the
/// tag differs the text stood there for a while, and was masked again.
pub fn ccm_open_in_place(aes: &Aes, nonce: &[u8], added: &[u8], tag: &[u8], text: &mut [u8]) -> bool
    requires { IsFit nonce.now (length text.old) (length tag.now) }
    ensures { OpensInPlace (λ o. Opens aes.now nonce.now added.now (text.old ++ tag.now) (length tag.now) o) text.old text.new result }
{
    // CCM's tag is over the text, which has to stand there before the tag is compared; masking again takes it away.
    mask(aes, nonce, text);
    let block = tag_block_of(aes, nonce, added, text, tag.len());
    if !is_same(&block[..tag.len()], tag) {
        mask(aes, nonce, text);
        return false;
    }
    true
}
