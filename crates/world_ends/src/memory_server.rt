//! The server of a world: over a disk in memory, of which no call fails.

mod beginning;
mod copying;
mod telling;

pub use beginning::{begin, restart};
pub use copying::copy_of;
pub use server_core::Book;
pub use telling::{accept, end, goes_on};
