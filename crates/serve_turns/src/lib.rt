//! One history for all threads, the turns of a served connection, and a thread for each link. It is a room because all
//! that waits and shares is here, over any server. The command `serve` stands on it.
#![tactic(auto)]

mod connection_turns;
pub mod event_book;
mod link_serving;
mod link_threads;
pub mod shared_book;

pub use connection_turns::{Begun, Connections, Nobody, Onlooker, serve_before, serve_connection};
pub use event_book::{Answer, Asks, EventBook, Lasting, Turn, What};
pub use link_serving::{
    ConnEnd, Ended, Roll, Service, SharedClock, entered, push_lines, serve_briefly,
};
pub use link_threads::{Halt, Served, serve_links};
pub use shared_book::{BookSeat, Receipt, SharedBook, shared, view};
