//! The end of a session: how what hung on a plain open settles, and what all else costs without a session.

mod detaching;
mod leaving;

pub use leaving::end_from;
