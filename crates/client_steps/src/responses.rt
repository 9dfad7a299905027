//! The response to what went out of a client (MS-SMB2 3.2.5), over its table and its opens.

mod hearing;

pub use crate::cutting::cut;
pub use crate::unsent::add_later;
pub use hearing::{Response, hear, is_awaited};
