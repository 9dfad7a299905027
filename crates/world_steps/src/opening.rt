//! A connection of a world is opened: both ends are made, the server hears of it, and the client's dialog begins.

mod beginning;
mod entering;
mod opening;
mod refusing;

pub use crate::{Act, Channel, ClientSide, Down, Event, Played, World, WorldError, happen, later};
pub use entering::{put_channel, say_up};
pub use opening::open;
