//! The commands `drill` and `gen`: a script's run over both ends, and the text of it. It is a room because the headline
//! is a clause of its top call. The program stands on it.
//!
//! The command line of `drill` and `gen` over both ends of the connections in code. What `drill` prints is the text of
//! the script's run over
//! bytes, of which the four sentences of the headline hold. What a program needs of a world under a script is passed on, so that it names
//! no crate of the world by itself.
#![tactic(auto)]

mod drill_setup;
mod drill_text;
mod ending;
mod generating;
mod running;
mod script_run;
mod settling;
mod steps;
mod summing;
mod top;
mod words;
mod writing;

pub use crate::drill_setup::plain_settings;
pub use crate::drill_text::{EndedWorld, end};
pub use crate::script_run::{Happened, Notes, World, WorldError, drive_event, watch, world_of};
pub use drill_setup::server_config;
pub use drill_text::{files, text_of};
pub use ending::Ending;
pub use running::steps_of;
pub use script_run::{drive, drive_line, run_lines};
pub use settling::{WorldEvent, begin, link, settle};
pub use top::smb311_drill;
