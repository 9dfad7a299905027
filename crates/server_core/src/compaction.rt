//! A server writes its journal anew, as a snapshot of what it holds: so its disk has room again, and a start has less to read.

mod compacting;
mod rewriting;

pub use compacting::compact_state;
