//! The journal's records as a server writes and reads them: the body that the records of an event make, and what is made of
//! bytes that a record holds.

mod body;
mod held;
mod laws;
mod typed;

pub use body::spelled;
pub use held::{elements_of, guid_of};
pub use laws::body_law;
pub(crate) use typed::{is_basic, is_long, is_text, is_wide};
