//! A submit on a client's table and its opens: an operation comes onto the open of its create. What a script may submit is this project's.

mod more;

pub use crate::submits_on_opens::{Opened, new_row};
pub use crate::taking::{make_room, may_take, take_row};
pub use more::take_more;
