//! The client event by event, each as the model's step, and a client to which events only happen. It is a room because
//! both ends in one run need the client in this form. Both ends in one run, and the tests of the client, stand on it.
#![tactic(auto)]

mod event_calls;
mod played_client;
pub mod world_law;

pub use event_calls::{Act, Client, Event, step};
pub use played_client::Played;
pub use world_law::{
    asks_fit_law, dialogs_keep_law, goes_out_law, pick_law, reply_looks_law, settled_by_law,
};
