//! An event behind the expiry of an open (MS-SMB2 3.3.6.2): its body behind that of the expiry, with all the memory that it wants.

mod behind;

pub use behind::{Both, front_body, ready_behind};
