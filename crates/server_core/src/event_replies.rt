//! The server's answer to an event, as its connections see it.

mod progress;
mod told;

pub use progress::Logon;
pub use told::reply_from;
