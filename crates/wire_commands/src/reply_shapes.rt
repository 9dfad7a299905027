//! What of a command the bodies of its replies are written by, and how many bytes they take at most.

mod room;
mod shape;

pub use room::room_for;
pub use shape::{no_setup, shape_of};
