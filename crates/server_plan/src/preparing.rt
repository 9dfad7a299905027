//! What an event comes to, with all the memory that its effect wants, so that it can't fail behind the journal.

mod memory;

pub use crate::rulings::{Ruling, at_connection, rule, ruling_law};
pub use crate::{Plan, body_of, fits, plan_event, plan_law};
pub use memory::prepare;
pub use server_effects::Prepared;
