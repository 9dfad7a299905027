//! All the memory that an event wants, for its body and for its effect, before anything is written.

mod room;

pub use room::make_room;
