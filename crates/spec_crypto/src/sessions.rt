//! What the preauthentication chain, the keys of a session, signatures, sealed messages, nonces and the choice of
//! algorithms are (MS-SMB2 3.1.4), as functions on byte lists over `spec_crypto::ciphers` and `spec_wire::messages`. The definitions
//! stand in `specs/`; here are the plain types that they speak of.

mod choice;
mod error;
mod material;

pub use choice::{ChooseError, Chosen};
pub use error::SealError;
pub use material::{Keys, Signer};
