//! The first row of a client's table, and the way upwards with it. How a client keeps its operations is this project's.

mod starting;

pub use starting::start_rows;
