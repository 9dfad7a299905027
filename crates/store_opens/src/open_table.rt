//! The server's table of opens (MS-SMB2 3.3.1.10): their rows by id, what names them by ClientGuid and CreateGuid, what
//! their sessions keep of each CreateGuid, what they hold of each file, and when those without a session expire.
//!
//! A call that needs memory takes it first: `reserve` and its kin leave what is shown as it was, and what they made room
//! for can't fail. No call but those at a session's or a tree's end is linear in the opens.

mod attach;
mod change;
mod due;
mod end;
mod error;
mod expired;
mod leave;
mod look;
mod made;
mod of_tree;
mod row;
mod rows;
mod stand;
mod table;
mod told;

pub use crate::channel_sequence::{Offered, Seen};
pub use crate::lock_replay::{Kept, Slots};
pub use crate::open_index::{Deadlines, FileOpens, KeptCreate, KeptResult, SessionOpens};
pub use crate::share_modes::{Open, Range, RangeError, RangeList};
pub use attach::same_name;
pub use error::OpenError;
pub use leave::Taken;
pub use row::{OpenParts, Row};
pub use table::Opens;
