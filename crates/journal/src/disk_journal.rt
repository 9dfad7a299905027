//! A journal on a disk that may crash at any moment. It keeps each body that was appended, or loses the
//! last one whole.
//!
//! The mark `smb311j1` stands at the front, then for each body an open gate (01), its length in four
//! bytes, the lowest first, and itself, and behind the last a closed gate. An entry is on the disk, with
//! the next closed gate, before its own gate opens. Behind the mark `smb311j2` each length is followed by
//! the CRC-32C of it and the body; what is said of crashes doesn't rest on it.

mod ahead;
mod entry;
mod form;
mod group;
mod journal;
mod laws;
mod list;
mod read;
mod recovery;
mod rewrite;
mod start;
mod waiting;

pub use journal::{Journal, JournalError, RefusedStart};
pub use laws::{broken_means_nothing, one_break, one_form, one_meaning};
pub use list::BytesList;
pub use read::Found;
pub use recovery::repair;
pub use rewrite::Rewrite;
pub use start::prepare;
