//! A client's choice at a push, one operation at a time (MS-SMB2 3.2.4): the lowest that nothing holds up and that is paid for, with its
//! lock slot.

mod finding;

pub use finding::{Attached, Found, find};
