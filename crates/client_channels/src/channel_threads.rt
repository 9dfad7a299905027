//! A thread for each channel of a client.

mod running;

pub use crate::channel_turns::{FreeGate, Gate};
pub use running::{Ran, run_channels};
