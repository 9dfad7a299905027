//! A client's choice at a push, over its table: the lowest operation that may go out and is paid for, behind the locks that settle for want
//! of a slot on the way (MS-SMB2 3.2.4).

mod choosing;
mod searching;

pub use choosing::choose;
