//! CMAC (SP 800-38B, section 6).
ghost use Rattle.std.specs.Prelude.{◌≡◌, ◌≤◌, ◌<◌, ◌*◌, ◌+◌, ◌++◌, length, nat_lt, ◌==◌, if◌then◌else◌, slice_index};
ghost use Rattle.spec_crypto.specs.ciphers.Aes.{block_sum, cipher};
ghost use Rattle.spec_crypto.specs.ciphers.Blocks.{chained};
ghost use Rattle.spec_crypto.specs.ciphers.Cmac.{doubled_block, first_subkey, padded, before_last, last_block, cmac};

use crate::aes_block::{Aes, block_sum_of};
use crate::aes_modes::blocks::{chain_of, enciphered};

/// x times a block, as an element of GF(2^128) with the highest bit first.
#[tactic(auto, unfolding(spec_crypto::specs::ciphers::Cmac::doubled_block))]
fn doubled_block_of(block: [u8; 16]) -> [u8; 16]
    ensures { result ≡ doubled_block block }
{
    let n = u128::from_be_bytes(block);
    let low = if n >> 127 == 1 { 135 } else { 0 };
    ((n << 1) ^ low).to_be_bytes()
}

#[tactic(auto, unfolding(spec_crypto::specs::ciphers::Cmac::first_subkey))]
fn first_subkey_of(aes: &Aes) -> [u8; 16]
    ensures { result ≡ first_subkey aes.now }
{
    doubled_block_of(enciphered(aes, &[0; 16]))
}

fn padded_byte(rest: &[u8], i: usize) -> u8
    ensures { result ≡ (if nat_lt i (length rest.now) then slice_index rest.now i else if i == length rest.now then 128 else 0) }
{
    if i < rest.len() {
        rest[i]
    } else if i == rest.len() {
        128
    } else {
        0
    }
}

/// The last bytes, a bit 1 and then zeros.
#[tactic(auto, unfolding(spec_crypto::specs::ciphers::Cmac::padded))]
fn padded_of(rest: &[u8]) -> [u8; 16]
    ensures { result ≡ padded rest.now }
{
    [
        padded_byte(rest, 0),
        padded_byte(rest, 1),
        padded_byte(rest, 2),
        padded_byte(rest, 3),
        padded_byte(rest, 4),
        padded_byte(rest, 5),
        padded_byte(rest, 6),
        padded_byte(rest, 7),
        padded_byte(rest, 8),
        padded_byte(rest, 9),
        padded_byte(rest, 10),
        padded_byte(rest, 11),
        padded_byte(rest, 12),
        padded_byte(rest, 13),
        padded_byte(rest, 14),
        padded_byte(rest, 15),
    ]
}

/// The last block of a message as it is enciphered: whole or padded, and with its subkey.
#[tactic(auto, unfolding(spec_crypto::specs::ciphers::Cmac::last_block, spec_crypto::specs::ciphers::Cmac::second_subkey))]
fn last_block_of(aes: &Aes, m: &[u8]) -> [u8; 16]
    ensures { result ≡ last_block aes.now m.now }
{
    let before = m.len().saturating_sub(1) / 16;
    let rest = &m[16 * before..];
    let first = first_subkey_of(aes);
    if rest.len() == 16 {
        block_sum_of(&padded_of(rest), &first)
    } else {
        block_sum_of(&padded_of(rest), &doubled_block_of(first))
    }
}

/// The tag of a message whose blocks before `m` were chained to `start`. It takes no memory.
fn cmac_from(aes: &Aes, start: &[u8; 16], m: &[u8]) -> [u8; 16]
    ensures { result ≡ cipher aes.now (block_sum (chained aes.now start.now m.now (before_last m.now)) (last_block aes.now m.now)) }
{
    let before = m.len().saturating_sub(1) / 16;
    let chain = chain_of(aes, start, m, before);
    enciphered(aes, &block_sum_of(&chain, &last_block_of(aes, m)))
}

/// The tag of a message under CMAC, 16 bytes (SP 800-38B, 6.2). It takes no memory.
#[tactic(auto, unfolding(spec_crypto::specs::ciphers::Cmac::cmac))]
pub fn cmac(aes: &Aes, m: &[u8]) -> [u8; 16]
    ensures { result ≡ cmac aes.now m.now }
{
    cmac_from(aes, &[0; 16], m)
}

/// The tag under CMAC of a message in two pieces, the first of 64 bytes. It takes no memory.
#[tactic(auto, using(crate::proofs::aes_modes::Joined::cmac_parts, crate::proofs::aes_modes::Joined::cmac_front))]
pub fn cmac_joined(aes: &Aes, front: &[u8; 64], rest: &[u8]) -> [u8; 16]
    ensures { result ≡ cmac aes.now (front.now ++ rest.now) }
{
    if rest.is_empty() {
        return cmac(aes, front);
    }
    cmac_from(aes, &chain_of(aes, &[0; 16], front, 4), rest)
}
