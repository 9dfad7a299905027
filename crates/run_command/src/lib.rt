//! The command `run`: a script's settings and operations for a server at an address, and the text of how they settled. It
//! is a room because it is one command with its clause. The program stands on it.
#![tactic(auto)]

mod asking;
mod command;
mod complete;
mod ending;
mod listing;
mod made_files;
mod telling;

pub use asking::{asked, operations_of};
pub use command::{Finished, Ready, run};
pub use complete::complete_law;
pub use ending::Ending;
pub use telling::{leaves_unknown, text_of};
