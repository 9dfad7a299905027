//! AES with its modes CMAC, CCM, GCM and GMAC, MD4, RC4, HMAC and key derivation. It is a room because it is code of
//! published standards that knows no message. The code of sessions stands on it.
#![tactic(auto)]

mod aes_block;
mod aes_modes;
mod mac_kdf;

pub use aes_block::{Aes, Front, block_sum_of};
pub use aes_modes::{
    ccm_fits, ccm_open, ccm_open_in_place, ccm_seal, ccm_seal_in_place, cmac, cmac_joined,
    gcm_open, gcm_open_in_place, gcm_seal, gcm_seal_in_place, gmac, gmac_joined, is_same,
};
pub use mac_kdf::{Rc4, hmac_md5, hmac_sha256, kdf, laws, md4};
