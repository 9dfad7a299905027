//! Scripts that a seed gives: opens of eight files, what is done with each, and losses, cuts, restarts and crashes in between.

mod events;
mod lines;
mod making;

pub use events::MadeEvent;
pub use lines::{MadeLine, push_line, statement_of};
pub use making::Maker;
