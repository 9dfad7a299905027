//! A script over a world in code: its settings, and its lines one after the other. The run is the one that the definitions of the exchange
//! over bytes have, line by line, and a refused line is the first that they refuse.

mod driving;
mod running;
mod starting;

pub use crate::settling::{Happened, Notes, Step, World, WorldError, watch};
pub use driving::{drive, drive_event};
pub use running::{drive_line, run_lines};
pub use starting::world_of;
