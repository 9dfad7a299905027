//! LOCKs that wait, and CANCEL, in front of a server (MS-SMB2 3.3.5.14, 3.3.5.16): each event is a turn of `law_waiting`'s model. It is a
//! room because it needs the server's tables and its events, and nothing of bytes or connections. Nobody stands on it yet: the command
//! `serve` still answers each LOCK at once.
#![tactic(auto)]

mod carrying;
mod held;
mod later;
mod touching;
mod trying;
mod wait_server;
mod waiter;
mod waiters;

pub use held::{held_up, would_wait};
pub use later::{Later, LaterList, OwnAnswer};
pub use wait_server::{CancelTarget, WaitEvent, WaitServer};
pub use waiter::Waiter;
