//! The keys of a session and of its channels, signatures, sealed messages and nonces (MS-SMB2 3.1.4.1 to 3.1.4.3).

mod derivation;
mod laws;
mod nonces;
mod sealing;
mod signing;

pub use derivation::{bind, derive};
pub use laws::nonces_once_law;
pub use nonces::{Nonces, Spent};
pub use sealing::{seal, seal_in_place, unseal, unseal_in_place};
pub use signing::{sign, verify};
pub use spec_crypto::{Chosen, Keys, SealError, Signer};
