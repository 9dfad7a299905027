//! The table of opens with what they share and lock, their channel sequences, lock slots and deadlines (MS-SMB2
//! 3.3.1.10). It is a room because each rule on one open is kept here. The server's tables and recovery stand on it.
#![tactic(auto)]

mod channel_sequence;
mod lock_replay;
mod open_index;
pub mod open_table;
mod share_modes;

pub use channel_sequence::{Offered, Seen};
pub use lock_replay::{Kept, Slots};
pub use open_index::{
    Deadlines, FileOpens, KeptCreate, KeptResult, SessionOpens, attach_in, close_guid, count_in,
    count_open, list_in, refuse_in, reserve_guid, stand_new, uncount_open, unlist_in,
};
pub use open_table::{OpenError, OpenParts, Opens, Row, Taken, same_name};
pub use share_modes::{
    Open, OpenList, Range, RangeError, RangeList, Ranges, ShareCounts, Violation, admits,
    ranges_law,
};
