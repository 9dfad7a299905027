//! A client takes an operation: one row more.

mod adding;

pub use adding::add_one;
