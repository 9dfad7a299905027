//! What is on its way between client and server in the model, and which sessions are still there. It is a room because
//! the laws on acts all begin from it. The laws on creates, locks, order, answers and runs stand on it.
#![tactic(auto)]

pub mod messages;
pub mod sessions;

pub use messages::{connections_law, settled_stays_law};
pub use sessions::{dialogs_law, sessions_law};
