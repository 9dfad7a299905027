//! An operation's request as its line takes it (MS-SMB2 3.2.4.1): a header that tells of its session and of the operation, and the
//! command's body behind it.

mod request;

pub use request::{Heading, number_of, request_of};
