//! Laws of signing and sealing, over their definitions alone (MS-SMB2 3.1.4.1, 3.1.4.3): what is sealed opens, what is signed
//! verifies, and two counters or two channels never give one nonce. Each law is the contract of a function that does nothing.

mod laws;

pub use laws::{distinct_nonces_law, sealed_opens_law, signed_verifies_law};
