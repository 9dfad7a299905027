//! A client on a link, for tests of what serves links. It is a room so that the tests of serving do not prove it twice.
//! The tests of serving stand on it.
//!
//! A client on a link, for tests of what serves links: it makes a session in a share, and asks for one thing at a time. And a net whose
//! first link fails as planned.
#![tactic(auto)]

mod client;
mod failing;
mod messages;

pub use client::{Client, plain_config};
pub use client_ends::{ClientConfig, Fresh};
pub use failing::{FailingEnd, FailingNet, failing_at};
