//! What ciphers, keyed hashes and key derivation compute (FIPS 197, SP 800-38B to 38D, SP 800-108, RFC 2104), what a
//! session's keys, signatures and sealed messages are (MS-SMB2 3.1.4), and what a logon's tokens say (MS-NLMP, RFC
//! 4178). It is one room because each is a function on byte lists that a reader compares with a published standard. The
//! exchange over bytes, the laws on ciphers, and the code of ciphers and sessions stand on it.
#![tactic(auto)]

mod ciphers;
mod sessions;
mod tokens;

pub use sessions::{ChooseError, Chosen, Keys, SealError, Signer};
pub use tokens::{DerError, LogonError, NtlmError, NtlmField, Type1};
