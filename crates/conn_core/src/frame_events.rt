//! The events of a frame's messages over a server (MS-SMB2 3.3.5.2).

mod asking;
mod dealing;
mod handing;

pub use asking::ask;
pub use dealing::{Moment, carry_out};
pub use handing::{Dealt, dealt_for, goes, hand_on, refuse};
