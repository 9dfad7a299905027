//! The server's tables together, and its verdict on a message: the ordered checks (MS-SMB2 3.3.5), which change
//! nothing. It is a room because a verdict reads and never writes. All of the server above stands on it.
//!
//! What the server's tables say of a request: the ordered checks (MS-SMB2 3.3.5), which change nothing.
#![tactic(auto)]

mod attributes;
mod check;
mod check_create;
mod check_open;
mod check_setting;
mod check_setup;
mod event_heard;
pub mod session_table;
pub mod setups;
mod tables;
mod verdicts;

pub use attributes::{file_attributes, granted, kept_attributes, made_attributes};
pub use event_heard::{Asked, LogonPart, ServerEvent, hear};
pub use session_table::{
    Begun, InMaking, Link, Purpose, SessionRow, TokenShown, Tree, challenge_for, final_for,
    token_shown,
};
pub use setups::{EventError, SetupHeard, absent_law, unmade_law};
pub use tables::{Config, Tables, info_of};
pub use verdicts::{
    Change, Verdict, action_of, all_lock, altered, bytes_change, check_first_binding, count_of,
    deletes_on_close, empties, file_info_size, file_named, form, has_bit, ioctl_status, is_empty,
    is_setup, is_slot, makes_file, makes_missing, mapped, ranges_of, refuse, refused_create,
    set_basic, shared_access, status, status_of, target_of, told, turn_down, turn_down_lock,
    volume_info_size, without_room,
};
