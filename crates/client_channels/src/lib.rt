//! The client's channels, each on a thread of its own: turns at one client, and what passes over a link for each. It is a room because all
//! that waits, shares and connects for the client is here. The command `run` stands on it.
#![tactic(auto)]

mod channel_links;
mod channel_threads;
mod channel_turns;
mod draws;

pub use channel_threads::{FreeGate, Gate, Ran, run_channels};
pub use channel_turns::ClientTurns;
