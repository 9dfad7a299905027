//! The machine itself behind the traits of `base_outside`: standard input and output, the journal's file, sockets and the clock, and the
//! lines of a log. It is a room because nothing here is proved but what the traits ask, so that a change here proves only the program
//! anew. The program and the tests of the outside stand on it.
#![tactic(auto)]

mod clock;
mod disk;
mod journal_file;
mod link;
mod log_lines;
mod net;
mod options;
mod shared;
mod sink;
mod source;

pub use clock::{StdClock, file_time};
pub use disk::StdDisk;
pub use journal_file::JournalFile;
pub use link::StdLink;
pub use log_lines::Stamped;
pub use net::StdNet;
pub use shared::Shared;
pub use sink::StdSink;
pub use source::StdSource;
