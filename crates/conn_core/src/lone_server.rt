//! A frame over a server that no one else uses, where no event found no memory and the server goes on: the connection's own step.

mod taking;

pub use crate::{Ended, Taken};
pub use taking::take_own;
