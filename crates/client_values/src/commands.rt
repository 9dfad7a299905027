//! What the operations of a script ask of a server, and what its replies tell of them, as the model's values.

mod asking;
mod telling;

pub use asking::{Ids, reconnect_of, request_of};
pub use telling::{id_in, value_in};
