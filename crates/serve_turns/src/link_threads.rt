//! A thread for each link that a net accepts, each by a seat of one book.

mod crew;
mod ended_list;
mod links;
mod running;

pub use links::{Halt, Served, serve_links};
