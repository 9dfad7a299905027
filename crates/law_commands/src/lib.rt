//! Each command reads back from its message, a success fits its request, and a reply's length is bounded. It is a room
//! because these laws join bytes with values and need neither keys nor runs. The laws on runs over bytes, and the code
//! of commands, stand on it.
#![tactic(auto)]

pub mod commands;
mod fitting;
pub mod lengths;

pub use commands::{
    class_law, dialog_reply_law, dialog_request_law, file_ids_law, other_request_law, output_law,
    reply_law, request_law, same_listing_law, same_reading_law, share_law,
};
pub use fitting::{listing_reply_law, operation_fits_law, success_fits_law};
pub use lengths::{listings_are_short_law, standards_are_short_law, units_are_counted_law};
