//! Sessions that end over the server's tables (MS-SMB2 3.3.5.6, 3.3.7.1). None of it takes memory, and none of it can fail.

mod ends;
mod leaving;

pub use ends::{end_if_named, end_session};
pub use leaving::{leave_all, leave_one, leave_open};
