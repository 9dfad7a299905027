//! LOCKs that wait, and CANCEL: which LOCK waits, one event of a server behind a list of waiters, and what holds of each event and
//! of each list of events. It is a room because the code of waiting leans on it alone.
#![tactic(auto)]

pub mod examples;
pub mod held;
mod out_steps;
pub mod wait_runs;

pub use held::{held_law, untouched_law};
pub use out_steps::order_law;
pub use wait_runs::{each_turn_law, waiting_law};
