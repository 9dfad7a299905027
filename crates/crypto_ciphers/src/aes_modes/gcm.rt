//! GCM and GMAC with a nonce of 12 bytes and a tag of 16 (SP 800-38D).
ghost use Rattle.std.specs.Prelude.{◌≡◌, ◌<◌, ◌≤◌, ◌+◌, ◌*◌, ◌-◌, ◌^◌, ◌++◌, length, IfOk};
ghost use Rattle.crypto_ciphers.specs.aes_modes.InPlace.{OpensInPlace, masked_to};
ghost use Rattle.spec_crypto.specs.ciphers.Gcm.{counter_block, hash_key, ciphertext, tag_of, sealed, Opens, gmac};

use crate::aes_block::{Aes, block_sum_of};
use crate::aes_modes::blocks::{
    block_count_of, enciphered, front_at, is_same, mask_block, mask_run,
};
use crate::aes_modes::hash::Table;
use std::alloc::{AllocError, Global};
use wire_bytes::Bytes;

/// The nonce and a number in four bytes.
#[inline(always)]
#[tactic(auto, unfolding(spec_crypto::specs::ciphers::Gcm::counter_block))]
fn counter_block_of(nonce: &[u8; 12], i: u32) -> [u8; 16]
    ensures { result ≡ counter_block nonce.now i }
{
    let n = nonce;
    [
        n[0],
        n[1],
        n[2],
        n[3],
        n[4],
        n[5],
        n[6],
        n[7],
        n[8],
        n[9],
        n[10],
        n[11],
        ((i >> 24) % 256) as u8,
        ((i >> 16) % 256) as u8,
        ((i >> 8) % 256) as u8,
        (i % 256) as u8,
    ]
}

/// Masks the first pairs of runs of a text, eight blocks each, where they stand, under the counter blocks from 2 on.
fn mask_runs(aes: &Aes, nonce: &[u8; 12], text: &mut [u8], pairs: usize)
    requires fits { length text.old < 2 ^ 36 - 31 }
    requires runs { 64 * (2 * pairs) ≤ length text.old }
    ensures { text.new ≡ masked_to aes.now (λ i. counter_block nonce.now (i + 2)) text.old (64 * (2 * pairs)) }
{
    // The planes of the keys cost as much as a few blocks.
    if pairs == 0 {
        return;
    }
    let keys = aes.plane_keys();
    for i in 0..pairs {
        let eight = aes.encrypt_eight(
            &keys,
            &counter_block_of(nonce, (4 * (2 * i) + 2) as u32),
            &counter_block_of(nonce, (4 * (2 * i) + 1 + 2) as u32),
            &counter_block_of(nonce, (4 * (2 * i) + 2 + 2) as u32),
            &counter_block_of(nonce, (4 * (2 * i) + 3 + 2) as u32),
            &counter_block_of(nonce, (4 * (2 * i + 1) + 2) as u32),
            &counter_block_of(nonce, (4 * (2 * i + 1) + 1 + 2) as u32),
            &counter_block_of(nonce, (4 * (2 * i + 1) + 2 + 2) as u32),
            &counter_block_of(nonce, (4 * (2 * i + 1) + 3 + 2) as u32),
        );
        mask_run(text, 2 * i, &eight.first);
        mask_run(text, 2 * i + 1, &eight.second);
    }
}

/// Masks a text where it stands, under the counter blocks from 2 on: eight blocks at a time, and the rest by a front of a
/// counter block, which serves until the number's last byte is 0 again.
fn mask(aes: &Aes, nonce: &[u8; 12], text: &mut [u8])
    requires { length text.old < 2 ^ 36 - 31 }
    ensures { text.new ≡ ciphertext aes.now nonce.now text.old }
{
    let pairs = text.len() / 128;
    mask_runs(aes, nonce, text, pairs);
    let runs = 2 * pairs;
    let mut front = aes.front_of(&counter_block_of(nonce, (4 * runs + 1) as u32));
    for i in 4 * runs..block_count_of(text) {
        let block = counter_block_of(nonce, (i + 2) as u32);
        front = front_at(aes, &block, front);
        mask_block(text, i, &aes.encrypt_behind(&front, &block));
    }
}

/// The text under the counter blocks from 2 on, in a vector with `room` bytes more.
fn ciphertext_of(
    alloc: Global,
    aes: &Aes,
    nonce: &[u8; 12],
    text: &[u8],
    room: usize,
) -> Result<Vec<u8>, AllocError>
    requires text { length text.now < 2 ^ 36 - 31 }
    requires room { room ≤ 16 }
    ensures text { IfOk result (λ v. v.items ≡ ciphertext aes.now nonce.now text.now) }
    ensures len { IfOk result (λ v. length v.items ≡ length text.now) }
{
    let mut out = Vec::with_capacity(alloc, text.len() + room)?;
    out.extend_from_slice(text)?;
    mask(aes, nonce, out.as_mut_slice());
    Ok(out)
}

#[tactic(auto, unfolding(spec_crypto::specs::ciphers::Gcm::hash_key))]
fn table_of(aes: &Aes) -> Table
    ensures { result.h ≡ hash_key aes.now }
{
    Table::new(u128::from_be_bytes(enciphered(aes, &[0; 16])))
}

fn tag_of_sealed(aes: &Aes, nonce: &[u8; 12], added: &[u8], sealed: &[u8]) -> [u8; 16]
    requires added { length added.now < 2 ^ 61 }
    requires sealed { length sealed.now < 2 ^ 61 }
    ensures { result ≡ tag_of aes.now nonce.now added.now sealed.now }
{
    let hash = table_of(aes).ghash_of(added, sealed);
    let mask = enciphered(aes, &counter_block_of(nonce, 1));
    block_sum_of(&hash.to_be_bytes(), &mask)
}

/// The text, sealed together with the additional data: the ciphertext and then the tag of 16 bytes
/// (SP 800-38D, 7.1). Seal nothing twice under one key and nonce.
#[tactic(auto, unfolding(spec_crypto::specs::ciphers::Gcm::sealed))]
pub fn gcm_seal(
    alloc: Global,
    aes: &Aes,
    nonce: &[u8; 12],
    added: &[u8],
    text: &[u8],
) -> Result<Bytes, AllocError>
    requires added { length added.now < 2 ^ 61 }
    requires text { length text.now < 2 ^ 36 - 31 }
    ensures { IfOk result (λ b. b ≡ sealed aes.now nonce.now added.now text.now) }
{
    let mut out = ciphertext_of(alloc, aes, nonce, text, 16)?;
    let tag = tag_of_sealed(aes, nonce, added, &out);
    out.extend_from_slice(&tag)?;
    Ok(Bytes::from_vec(out))
}

/// The text that was sealed, or `None` exactly where there are fewer than 16 bytes or the tag is not
/// the one of the ciphertext and the additional data (SP 800-38D, 7.2). The tag is compared before
/// anything is deciphered.
pub fn gcm_open(
    alloc: Global,
    aes: &Aes,
    nonce: &[u8; 12],
    added: &[u8],
    sealed: &[u8],
) -> Result<Option<Bytes>, AllocError>
    requires added { length added.now < 2 ^ 61 }
    requires sealed { length sealed.now < 2 ^ 36 - 15 }
    ensures { IfOk result (λ o. Opens aes.now nonce.now added.now sealed.now o) }
{
    if sealed.len() < 16 {
        return Ok(None);
    }
    let count = sealed.len() - 16;
    let ciphertext = &sealed[..count];
    let tag = tag_of_sealed(aes, nonce, added, ciphertext);
    if !is_same(&tag, &sealed[count..]) {
        return Ok(None);
    }
    let text = ciphertext_of(alloc, aes, nonce, ciphertext, 0)?;
    Ok(Some(Bytes::from_vec(text)))
}

/// Seals a text where it stands, together with the additional data, and gives the tag. It takes no memory
/// (SP 800-38D, 7.1). Seal nothing twice under one key and nonce.
pub fn gcm_seal_in_place(aes: &Aes, nonce: &[u8; 12], added: &[u8], text: &mut [u8]) -> [u8; 16]
    requires added { length added.now < 2 ^ 61 }
    requires text { length text.old < 2 ^ 36 - 31 }
    ensures hidden { text.new ≡ ciphertext aes.now nonce.now text.old }
    ensures tag { result ≡ tag_of aes.now nonce.now added.now text.new }
{
    // Masked first, because the tag is over the ciphertext. One pass that masks and hashes was no quicker than two.
    mask(aes, nonce, text);
    tag_of_sealed(aes, nonce, added, text)
}

/// Whether the tag is the one of a ciphertext and its additional data: the ciphertext then becomes its text, and else
/// stays as it is. It opens what `gcm_open` opens, and takes no memory (SP 800-38D, 7.2).
pub fn gcm_open_in_place(
    aes: &Aes,
    nonce: &[u8; 12],
    added: &[u8],
    tag: &[u8; 16],
    text: &mut [u8],
) -> bool
    requires added { length added.now < 2 ^ 61 }
    requires text { length text.old < 2 ^ 36 - 31 }
    ensures { OpensInPlace (λ o. Opens aes.now nonce.now added.now (text.old ++ tag.now) o) text.old text.new result }
{
    // The tag is over the ciphertext, so it is compared before anything is deciphered: a wrong one leaves nothing to
    // undo.
    let own = tag_of_sealed(aes, nonce, added, text);
    if !is_same(&own, tag) {
        return false;
    }
    mask(aes, nonce, text);
    true
}

/// The tag of a message under GMAC: GCM's over the message as additional data and no text
/// (SP 800-38D, 3). It takes no memory.
pub fn gmac(aes: &Aes, nonce: &[u8; 12], message: &[u8]) -> [u8; 16]
    requires { length message.now < 2 ^ 61 }
    ensures { result ≡ gmac aes.now nonce.now message.now }
{
    tag_of_sealed(aes, nonce, message, &[])
}

/// The tag under GMAC of a message in two pieces, the first of 64 bytes. It takes no memory.
pub fn gmac_joined(aes: &Aes, nonce: &[u8; 12], front: &[u8; 64], rest: &[u8]) -> [u8; 16]
    requires { length rest.now < 2 ^ 60 }
    ensures { result ≡ gmac aes.now nonce.now (front.now ++ rest.now) }
{
    let hash = table_of(aes).ghash_joined(front, rest);
    let mask = enciphered(aes, &counter_block_of(nonce, 1));
    block_sum_of(&hash.to_be_bytes(), &mask)
}
