//! The part of a server's state that outlives a restart, and what the journal's records make of it.

mod apply;
mod creates;
mod durable;
mod files;
mod leaves;
mod locks;
mod pieces;
mod records;

pub use durable::{Durable, FULL_ROOM};
