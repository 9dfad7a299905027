//! What holds of the model's server alone, on every run: its tables fit together, and what it tells with a success. It
//! is a room because it is the lowest law on the model and most others use it. The laws on records, sessions and acts,
//! and the server's code, stand on it.
#![tactic(auto)]

pub mod successes;
pub mod tables;

pub use successes::bodies_are_told_law;
pub use tables::fits_law;
