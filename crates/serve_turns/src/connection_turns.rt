//! Connections that take turns at one shared server: a turn for each message that asks something of it, and the answer on the link.

mod connections;
mod ending;
mod frames;
mod messages;
mod news;
mod onlooking;
mod state;
mod turning;
mod writing;

pub use connections::{Connections, serve_before, serve_connection};
pub use onlooking::{Begun, Nobody, Onlooker};
