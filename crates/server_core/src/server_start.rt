//! A server begins on the disk that an earlier one left.

mod recovering;

pub use recovering::recover_state;
