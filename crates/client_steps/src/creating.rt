//! A create is submitted, with an open of its own. What a script may submit, and how a client keeps it, is this project's.

mod creating;

pub use crate::submitting::take_more;
pub use crate::taking::{make_room, may_take};
pub use creating::take_first;
