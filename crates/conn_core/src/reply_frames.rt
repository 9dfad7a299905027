//! The answer to a frame of a server's connection (MS-SMB2 3.3.4.1): the replies to its messages, joined in frames.

mod adding;
mod answering;
mod room;

pub use answering::{Answered, answer, answered_with};
