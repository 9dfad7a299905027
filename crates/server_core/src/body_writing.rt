//! The body of an event's records goes onto the disk: room for it first, so that the write wants no memory; and what is counted
//! behind it.

mod behind;
mod writing;

pub use behind::{stopped_behind, used_behind};
pub use writing::{reserve_body, write_body};
