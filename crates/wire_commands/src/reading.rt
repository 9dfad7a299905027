//! From bytes to what a request asks and what a response says.

mod asked;
mod charges;
mod clashes;
mod create;
mod heard_names;
mod hearing;
mod ids;
mod lock;
mod plain;
mod query;
mod session;
mod setting;
mod status;
mod texts;

pub use asked::{heard_as, request_of};
pub use hearing::reply_of;
