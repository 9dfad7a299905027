//! A verdict that was made ready is carried out (MS-SMB2 3.3.5). None of it takes memory, and none of it can fail.

mod carry;
mod sessions;

pub use carry::carry_out;
pub use sessions::{end_by_message, set_up};
