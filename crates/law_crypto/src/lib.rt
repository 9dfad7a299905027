//! What is sealed opens, what is signed verifies, and both sides of a logon agree on its key. It is a room because
//! these laws need ciphers and tokens alone. The code of ciphers and sessions, and the laws on runs over bytes, stand
//! on it.
#![tactic(auto)]

pub mod ciphers;
mod ntlm;
pub mod sealing;

pub use ciphers::{ccm_law, gcm_law};
pub use ntlm::{answer_law, challenge_law, own_logon_law, type1_law, type2_law, type3_law};
pub use sealing::{distinct_nonces_law, sealed_opens_law, signed_verifies_law};
