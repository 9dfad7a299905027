//! The law on negotiation over all tampering, and that no nonce comes twice. It is a room because these two laws hold
//! on every network, tampered with or not. The laws on runs and on scripts stand on it.
#![tactic(auto)]

mod client_nonces;
pub mod event_nonces;
pub mod negotiation;
pub mod server_nonces;

pub use client_nonces::{nonces_to_server_law, plain_nonces_law};
pub use event_nonces::event_nonces_law;
pub use negotiation::{guarded_law, negotiation_law};
pub use server_nonces::nonces_to_client_law;
