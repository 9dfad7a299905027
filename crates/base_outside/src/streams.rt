//! The outside of the program: where its input comes from and where its output goes, as traits with
//! memory fakes.
//!
//! Each object counts its faults in a ghost member that code over the traits cannot raise, and tells
//! its bytes where it knows them.

mod address;
mod disk;
mod failed;
mod mem_disk;
mod mem_renewal;
mod mem_sink;
mod mem_source;
mod plan;
mod renewal;
mod room;
mod sink;
mod source;

pub use address::Address;
pub use disk::Disk;
pub use failed::Failed;
pub use mem_disk::MemDisk;
pub use mem_renewal::MemRenewal;
pub use mem_sink::MemSink;
pub use mem_source::MemSource;
pub use plan::Plan;
pub use renewal::Renewal;
pub use room::{DiskStep, TellsRoom};
pub use sink::Sink;
pub use source::Source;
