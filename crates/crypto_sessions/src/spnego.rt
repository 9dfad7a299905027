//! SPNEGO's tokens (RFC 4178, MS-SPNG) around NTLM: NegTokenInit and NegTokenResp in DER, read with every definite
//! length form of up to four bytes and written with the shortest.

mod element;
mod fields;
mod fitting;
mod laws;
mod reading;
mod token;
mod writing;

pub use fitting::{NTLM_LIST, can_write_init, can_write_resp};
pub use laws::{init_law, resp_law};
pub use reading::{read_init, read_resp};
pub use spec_crypto::DerError;
pub use token::{InitToken, RespToken};
pub use writing::{write_init, write_resp};
