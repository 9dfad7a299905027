//! The client that a program has: who it is, of its settings, and the book that its channels share: a turn is one event of the client, and
//! is told what to do then. It is a room because no thread, link or net is in it: what a channel is to do is known of the turns alone. The
//! client's channels, and both ends in one run, stand on it.
#![tactic(auto)]

mod asking;
mod beginning;
mod book;
mod configuring;
mod reading;
mod turn;
mod turning;

pub use book::ClientBook;
pub use configuring::client_config;
pub use turn::{Told, Turn};
pub use turning::is_nothing;
