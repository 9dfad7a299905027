//! The create contexts of a CREATE request and of its response (MS-SMB2 2.2.13.2, 2.2.14.2), both ways.

mod context;
mod due;
mod reply;
mod reply_writing;
mod request;
mod request_writing;
mod values;
mod writing;

pub use reply::read_reply_chain;
pub use reply_writing::write_reply_chain;
pub use request::read_chain;
pub use request_writing::write_chain;
pub use spec_wire::{
    ChainError, CreateContexts, Dh2c, Dh2q, Dh2qReply, DiskId, MaximalAccess, ReplyContexts,
};
