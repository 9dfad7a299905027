//! A server begins on the disk that an earlier one left: its journal, and the tables that the journal's records stand for.

mod starting;
mod tables;

pub use starting::{begin, restart};
