//! A client to which events happen: its methods ask for nothing, and it always shows a client of the model.

mod played;
mod sent;

pub use crate::event_calls::{Act, Client, Event};
pub use played::Played;
