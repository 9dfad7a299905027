//! Laws of the client's table and of its choice of an operation. It is a room because the client's code leans on them
//! and on no other law. The client's code stands on it.
#![tactic(auto)]

pub mod choice;
mod runs;
mod spare_credits;
pub mod table;

pub use choice::choice_law;
pub use runs::run_kept_law;
pub use spare_credits::choice_credits_law;
pub use table::{kept_law, settled_law};
