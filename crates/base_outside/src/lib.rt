//! Sources, sinks, disks, links, nets and clocks as traits, with forms in memory. It is a room because contracts name what the
//! program shares with its machine by these traits. The journal, serving, the programs and the tests stand on it.
#![tactic(auto)]

mod network;
pub mod streams;
mod whole_texts;

pub use network::{
    Clock, Link, MemClock, MemEnd, MemLink, MemNet, Net, News, Printed, SentName, Standing, Watch,
    is_end,
};
pub use streams::{
    Address, Disk, DiskStep, Failed, MemDisk, MemRenewal, MemSink, MemSource, Plan, Renewal, Sink,
    Source, TellsRoom,
};
pub use whole_texts::{ReadError, SCRIPT_BYTES, read_script, write_all};
