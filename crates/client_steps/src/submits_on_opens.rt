//! An operation is submitted on an open that there is: how it stands at first, and that it comes onto the table and its open. What a script
//! may submit, and how a client keeps it, is this project's.

mod fresh;
mod joining;
mod standing;

pub use crate::taking::{make_room, may_take, take_row};
pub use client_tables::{Opened, Table};
pub use fresh::new_row;
pub use joining::take_onto;
