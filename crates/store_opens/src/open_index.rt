//! What stands beside the rows of a server's opens (MS-SMB2 3.3.1.10): what a session keeps of each CreateGuid and which
//! opens are its own, what the opens of one file hold of it, and which deadlines come next.
//!
//! A call that needs memory takes it first, and what it made room for can't fail.

mod held;
mod index;
mod keep;
mod sessions;

pub use crate::share_modes::{Open, Range};
pub use held::{FileOpens, count_open, uncount_open};
pub use index::Deadlines;
pub use keep::{KeptCreate, KeptResult, SessionOpens};
pub use sessions::{
    attach_in, close_guid, count_in, list_in, refuse_in, reserve_guid, stand_new, unlist_in,
};
