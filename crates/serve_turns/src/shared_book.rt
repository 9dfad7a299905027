//! A book that several threads change in turn, with one history for all of them.
//!
//! Each call draws a ticket and waits for its turn. In its turn it gives the book one event and keeps
//! the reply. All events stand in one list, and each seat knows a beginning of it, in which it finds its
//! own calls, each once.

mod bells;
pub mod book;
pub mod shared;
mod turns;
pub mod view;

pub use book::Book;
pub use shared::{BookSeat, Receipt, SharedBook};
