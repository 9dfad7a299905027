//! The channel sequence that an open keeps, and what a request's is against it (MS-SMB2 3.3.5.2.10). A client counts it
//! up each time that it loses a channel, so a request of an older one may come late.

mod seen;

pub use seen::{Offered, Seen};
