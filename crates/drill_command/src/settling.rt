//! A connection of a world in code is linked, and a world is settled: what the lines of a script come to, as the definitions of the
//! exchange over bytes have it.

mod linking;
mod settling;

pub use linking::link;
pub use settling::settle;
pub use world_steps::events::{Step, step};
pub use world_steps::{Happened, Notes, World, WorldError, WorldEvent, begin, watch};
