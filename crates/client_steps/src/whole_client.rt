//! A client: its operations, its session and its opens, in one value, and what each event does to it.

mod client;
mod telling;

pub use crate::pushing::Pushed;
pub use crate::responses::{Response, is_awaited};
pub use client::Client;
