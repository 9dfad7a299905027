//! A line: the client's end of a connection behind its dialog, which sends requests and takes replies (MS-SMB2 3.2.4.1,
//! 3.2.5.1).

mod incoming;
mod interim;
mod outgoing;

pub use incoming::{Answer, hear};
pub use interim::hear_or_wait;
pub use outgoing::{has_cipher, send};
