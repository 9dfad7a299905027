//! Both ends of a run, what it draws, and how it ended. It is a room because it says how the ends in code show a world
//! of the definitions. The steps of a run and the command `drill` stand on it.
//!
//! One client, one server and what is on its way between them: what both ends of each connection are in code, and how it shows a world of
//! the exchange over bytes.
#![tactic(auto)]

mod draws;
mod events;
mod memory_server;
mod notes;
pub mod results;
mod sides;
mod world;

pub use crate::memory_server::{Book, accept, begin, end, restart};
pub use client_events::{Act, Client, Event, Played};
pub use draws::{draw, draw_8, draw_16};
pub use events::{WorldError, WorldEvent};
pub use memory_server::{copy_of, goes_on};
pub use notes::{Happened, Note, Notes, Step};
pub use results::{EndedWorld, Order, files, orders};
pub use sides::{Channel, ClientSide, Down, Up};
pub use world::{Marks, Places, World};
