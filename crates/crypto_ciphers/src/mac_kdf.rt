//! Keyed hashes and key derivation: MD4 (RFC 1320), RC4, HMAC (RFC 2104) over MD5 and SHA-256, and the
//! derivation of keys in counter mode (SP 800-108). No call takes memory, and none copies its message.

mod derivation;
mod keyed_hash;
pub mod laws;
mod message_digest;
mod rounds;
mod stream_cipher;

pub use derivation::kdf;
pub use keyed_hash::{hmac_md5, hmac_sha256};
pub use message_digest::md4;
pub use stream_cipher::Rc4;
