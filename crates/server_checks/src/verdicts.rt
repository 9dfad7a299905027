//! What the checks of a request come to (MS-SMB2 3.3.5), and the rules that need nothing but the request.

mod bits;
mod form_rules;
mod ranges;
mod request;
mod setting;
pub mod status;
mod verdict;

pub use bits::{
    action_of, deletes_on_close, empties, has_bit, makes_file, makes_missing, mapped,
    shared_access, writes,
};
pub use form_rules::{all_lock, form};
pub use ranges::{ranges_of, status_of};
pub use request::{
    GET_OBJECT_ID, file_info_size, file_named, ioctl_status, is_setup, is_slot, volume_info_size,
};
pub use setting::{may_set_attributes, may_set_times, set_basic, target_of};
pub use verdict::{
    Change, Verdict, altered, bytes_change, check_first_binding, count_of, is_empty, refuse,
    refused_create, told, turn_down, turn_down_lock, without_room,
};
