//! An event's body goes onto the disk, and then the tables follow.

mod committing;

pub use committing::commit;
