//! A server over its disk, as its connections see it.

mod asked;
mod book;

pub use book::{Book, DiskBook};
