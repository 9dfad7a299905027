//! HMAC over MD5 and SHA-256.
ghost use Rattle.std.specs.Prelude.{◌≡◌, ◌++◌, ◌≤◌, length};
ghost use Rattle.spec_crypto.specs.ciphers.Hmac.{zero_padded, key_block, padded_by, hmac_of_md5, hmac_of_sha256};
ghost use Rattle.sha2.specs.Sha256.{sha256};
ghost use Rattle.md5.specs.Md5.{md5};

use md5::Md5;
use sha2::Sha256;

/// A block of a hash.
const BLOCK: usize = 64;

pub(crate) const INNER: u8 = 0x36;

const OUTER: u8 = 0x5c;

/// HMAC over MD5 of two parts, one behind the other (RFC 2104).
pub fn hmac_md5(key: &[u8], first: &[u8], second: &[u8]) -> [u8; 16]
    ensures { result ≡ hmac_of_md5 key.now (first.now ++ second.now) }
{
    let block = block_for_md5(key);
    let mut inner = <Md5 as md5::Digest>::new();
    md5::Digest::update(&mut inner, padded(&block, INNER).as_slice());
    md5::Digest::update(&mut inner, first);
    md5::Digest::update(&mut inner, second);
    let digest = md5::Digest::finalize(inner);
    let mut outer = <Md5 as md5::Digest>::new();
    md5::Digest::update(&mut outer, padded(&block, OUTER).as_slice());
    md5::Digest::update(&mut outer, digest.as_slice());
    md5::Digest::finalize(outer)
}

/// HMAC over SHA-256 (RFC 2104).
pub fn hmac_sha256(key: &[u8], m: &[u8]) -> [u8; 32]
    ensures { result ≡ hmac_of_sha256 key.now m.now }
{
    let block = block_for_sha256(key);
    let mut inner = <Sha256 as sha2::Digest>::new();
    sha2::Digest::update(&mut inner, padded(&block, INNER).as_slice());
    sha2::Digest::update(&mut inner, m);
    outer_sha256(&block, sha2::Digest::finalize(inner))
}

/// The outer hash over the inner one's digest.
pub(crate) fn outer_sha256(block: &[u8; 64], digest: [u8; 32]) -> [u8; 32]
    ensures { result ≡ sha256 (padded_by 0x5c block.now ++ digest) }
{
    let mut outer = <Sha256 as sha2::Digest>::new();
    sha2::Digest::update(&mut outer, padded(block, OUTER).as_slice());
    sha2::Digest::update(&mut outer, digest.as_slice());
    sha2::Digest::finalize(outer)
}

/// A key as a block for SHA-256.
pub(crate) fn block_for_sha256(key: &[u8]) -> [u8; 64]
    ensures { result ≡ key_block sha256 key.now }
{
    if key.len() > BLOCK {
        let digest = <Sha256 as sha2::Digest>::digest(key);
        return zero_padded(digest.as_slice());
    }
    zero_padded(key)
}

// A key as a block for MD5.
fn block_for_md5(key: &[u8]) -> [u8; 64]
    ensures { result ≡ key_block md5 key.now }
{
    if key.len() > BLOCK {
        let digest = <Md5 as md5::Digest>::digest(key);
        return zero_padded(digest.as_slice());
    }
    zero_padded(key)
}

// Bytes with zeros behind them, up to a block.
fn zero_padded(bytes: &[u8]) -> [u8; 64]
    requires { length bytes.now ≤ 64 }
    ensures { result ≡ zero_padded 64 bytes.now }
{
    let mut block = [0u8; 64];
    block[..bytes.len()].copy_from_slice(bytes);
    block
}

/// A block with each byte joined with a pad's.
pub(crate) fn padded(block: &[u8; 64], pad: u8) -> [u8; 64]
    ensures { result ≡ padded_by pad block.now }
{
    let mut joined = [0u8; BLOCK];
    'join: for k in 0..BLOCK {
        joined[k] = block[k] ^ pad;
    }
    joined
}
