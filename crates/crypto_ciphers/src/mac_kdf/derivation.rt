//! Key derivation in counter mode.
ghost use Rattle.std.specs.Prelude.{◌≡◌, ◌⊎◌};
ghost use Rattle.spec_crypto.specs.ciphers.Hmac.{hmac_of_sha256};
ghost use Rattle.spec_crypto.specs.ciphers.Kdf.{fixed_input, derived_padded};

use crate::mac_kdf::keyed_hash::{INNER, block_for_sha256, outer_sha256, padded};
use sha2::{Digest, Sha256};

/// The key of 128 or 256 bits that a key derives for a label and a context (SP 800-108 in counter mode, with
/// HMAC over SHA-256). It stands in the first bytes, and zeros behind it.
pub fn kdf(key: &[u8], label: &[u8], context: &[u8], bits: u32) -> [u8; 32]
    requires { (bits ≡ 128) ⊎ (bits ≡ 256) }
    ensures { result ≡ derived_padded key.now label.now context.now bits }
{
    let output = first_output(key, label, context, bits);
    if bits == 256 {
        return output;
    }
    let mut half = [0u8; 32];
    half[..16].copy_from_slice(&output[..16]);
    half
}

// The output of the counter 1, which has as many bits as any key here.
fn first_output(key: &[u8], label: &[u8], context: &[u8], bits: u32) -> [u8; 32]
    ensures { result ≡ hmac_of_sha256 key.now (fixed_input 1 label.now context.now bits) }
{
    let block = block_for_sha256(key);
    let mut inner = Sha256::new();
    inner.update(padded(&block, INNER).as_slice());
    inner.update(1u32.to_be_bytes().as_slice());
    inner.update(label);
    inner.update([0u8].as_slice());
    inner.update(context);
    inner.update(bits.to_be_bytes().as_slice());
    outer_sha256(&block, inner.finalize())
}
