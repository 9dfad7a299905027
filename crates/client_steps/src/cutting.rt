//! A channel of the client's table is cut, and the session ends with its last one, or with a reply.

mod cutting;
mod ending;

pub use client_tables::Opened;
pub use cutting::cut;
pub use ending::end_table;
