//! A world's client takes the front of what comes down on a channel that is ready: a reply settles its operation, or ends the session, and
//! what is no reply to a request that waits cuts the channel.

mod hearing;
mod noting;
mod reading;
mod taking;

pub use crate::sending::push;
pub use taking::take_line;
