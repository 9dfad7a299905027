//! A world in code behind its last event: how its operations settled, the order of each open's operations, and the files.

mod ending;
mod entries;
mod ordering;

pub use ending::{EndedWorld, end, files};
pub use ordering::{Order, orders};
