//! A dialog: how the client makes a session, or binds a further channel to it (MS-SMB2 3.2.4.2, 3.2.5.2, 3.2.5.3, 3.2.5.5).

mod beginning;
mod ending;
mod going;
mod heard;
mod hearing;

pub use beginning::{start, start_bind};
pub use heard::Heard;
pub use hearing::hear;
