//! The header of a message, the messages of a frame, and what the readers of messages share.

mod compound;
mod contexts;
mod links;
mod parts;
mod places;
mod reading;
mod request;
mod spans;
mod writing;

pub use compound::split_compound;
pub use contexts::{ContextAt, context_behind, contexts_of};
pub use links::{is_badly_linked, items_behind, piece_of};
pub use parts::{counted_at, part_of};
pub use places::{gap_before, told_place};
pub use reading::read_header;
pub use request::Request;
pub use spans::Parts;
pub use spec_wire::{Header, HeaderError, MessageError, Part, Span};
pub use writing::write_header;
