//! What a client keeps of its opens beside the client's table, and what stays of operations and opens over a step.

mod opened;

pub use opened::Opened;
