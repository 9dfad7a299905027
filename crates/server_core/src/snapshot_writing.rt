//! A snapshot of the tables, written into a draft of the journal piece by piece, in bodies of about 1 MiB.

mod bodies;
mod files;
mod opens;
mod pieces;
mod ranges;
mod writing;

pub use bodies::Unwritten;
pub use writing::{snapshot_size, write_snapshot};
