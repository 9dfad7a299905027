//! The command `serve`: its words and settings, the server as a book of many connections, and each ending. It is a room
//! because it is one command with its clause. The program stands on it.
//!
//! What `serve` does: settings from a source, a server on a disk, and connections from a net, each on a thread of its own.
#![tactic(auto)]

mod alone;
mod behind;
mod command;
mod due;
mod ending;
mod lasting_book;
mod lines;
mod opening;
mod printing;
mod server_settings;

pub use alone::alone_law;
pub use command::{Finished, serve, serve_with};
pub use due::due_law;
pub use ending::Ending;
pub use opening::settled;
pub use printing::usage;
pub use server_settings::{Bound, Said, SettingsRefusal, Setup, address, config_in, read_words};
