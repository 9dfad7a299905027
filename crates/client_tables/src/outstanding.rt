//! What is outstanding as a set of numbers beside the rows: it goes with its channel, or with the session, and leaves the set.

mod losing;
mod sweeping;

pub use losing::{lose_all, lose_on_channel};
