//! Servers for programs that run it over many events and compare what it answers. Their calls are those of `Server`, or of one behind its waiters, and tell nothing
//! of its state to contracts: so the check of such a program reads none of the server's definitions. What each call does stands at
//! `Server` and `WaitServer`.

mod running;
mod waiting;

pub use running::{Running, Runs};
pub use waiting::Waiting;
