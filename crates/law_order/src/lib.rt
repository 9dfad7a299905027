//! No write acts behind a newer channel sequence, and a file under an open that denies writers is one connection's. It
//! is a room because both sentences of the headline come from one long proof on what a file holds. The laws on outcomes
//! and on scripts stand on it.
#![tactic(auto)]

pub mod order;
mod order_list;

pub use order::{newer_law, one_connection_law};
pub use order_list::members_order_law;
