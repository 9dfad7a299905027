//! Laws of commands and replies as bytes, over their definitions alone: what a client writes for the
//! command of an operation reads back as that command, and what a server writes for its success is heard
//! as that success. Each law is the contract of a function that does nothing.

mod create;
mod dialog;
mod file_ids;
mod other;
mod parts;
mod plain;
mod reading;
mod reply;
mod request;
mod setting;
mod told;

pub use dialog::{dialog_reply_law, dialog_request_law, share_law};
pub use file_ids::file_ids_law;
pub use other::other_request_law;
pub use reading::{same_listing_law, same_reading_law};
pub use reply::reply_law;
pub use request::request_law;
pub use told::{class_law, output_law};
