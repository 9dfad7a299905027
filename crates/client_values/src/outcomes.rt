//! How a client's operations settle, and what hearing a response comes to, as the model's values.

mod hearing;
mod outcome;

pub use hearing::{Asked, Hearing, heard_law, weigh};
pub use outcome::{Outcome, RefusedDialog, Why, is_gone};
