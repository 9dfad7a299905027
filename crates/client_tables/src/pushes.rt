//! What a client does at a push with the operation that it found (MS-SMB2 3.2.4): the model's choice, by rows and by the lock slots
//! of the operation's open.

mod picking;
mod sending;

pub use picking::{goes_itself, pick};
pub use sending::{send_again, send_first, send_lock, send_lock_again};
