//! How operations of the client settle without a reply: by row and by value at once, from below, so that what settles waits for nothing.

mod finishing;
mod left;
mod settling;

pub use finishing::give_up_from;
pub use left::first_left;
pub use settling::settle_as;
