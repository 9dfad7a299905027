//! The server as its connections see it: what it answers to a message, and the answers to a frame.

mod error;
mod replies;
mod serve;

pub use error::ServeError;
pub use replies::Replies;
pub use serve::{Reply, Serve};
