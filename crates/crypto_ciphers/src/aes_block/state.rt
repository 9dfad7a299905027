//! The S-box and the sum of blocks (FIPS 197, 5.1).
ghost use Rattle.std.specs.Prelude.{◌≡◌};
ghost use Rattle.spec_crypto.specs.ciphers.Field.{doubled, sbox};
ghost use Rattle.spec_crypto.specs.ciphers.Aes.{block_sum};

use crate::aes_block::columns::{block_of, columns_of, sum_of};
use crate::aes_block::sbox::SBOX;

#[inline(always)]
pub(crate) fn substituted(byte: u8) -> u8
    ensures { result ≡ sbox byte }
{
    SBOX[byte as usize]
}

/// x times an element of the field.
#[inline(always)]
pub(crate) fn doubled_of(byte: u8) -> u8
    ensures { result ≡ doubled byte }
{
    if byte < 128 {
        2 * byte
    } else {
        (byte << 1) ^ 27
    }
}

/// The sum of two blocks, as AddRoundKey takes it.
#[inline(always)]
pub fn block_sum_of(s: &[u8; 16], t: &[u8; 16]) -> [u8; 16]
    ensures { result ≡ block_sum s.now t.now }
{
    block_of(sum_of(columns_of(s), columns_of(t)))
}
