//! The modes of AES that SMB signs and seals with: CMAC (SP 800-38B), CCM (SP 800-38C), GCM and GMAC (SP 800-38D).

mod blocks;
mod ccm;
mod gcm;
mod hash;
mod mac;
mod prefix;

pub use blocks::is_same;
pub use ccm::{ccm_fits, ccm_open, ccm_open_in_place, ccm_seal, ccm_seal_in_place};
pub use gcm::{gcm_open, gcm_open_in_place, gcm_seal, gcm_seal_in_place, gmac, gmac_joined};
pub use mac::{cmac, cmac_joined};
