//! What a message of a frame hands on to a related one, and what that one takes over (MS-SMB2 3.3.5.2.7.2).

mod carrying;
mod related;

pub use carrying::{carry, inherit};
pub use related::{Carry, bare_status, breaks_form};
