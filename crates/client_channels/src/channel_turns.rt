//! One channel of a client: its connections, its dialogs, its requests and their replies, turn by turn.

mod dialogs;
mod lines;
mod outside;
mod passing;
mod rounds;
mod shared_client;
mod starting;

pub use outside::{FreeGate, Gate};
pub(crate) use outside::{News, Outside};
pub(crate) use passing::ask;
pub(crate) use rounds::{ChannelWorked, Worked, work};
pub use shared_client::ClientTurns;
