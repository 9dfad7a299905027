//! The replies to a frame's messages, before they have their places in a frame (MS-SMB2 3.3.4.1).

mod plain;
mod saying;

pub use saying::{Answers, has_event, said};
