//! What a message owes the journal and what it comes to, with all memory that its effect wants, before anything is
//! carried out. It is a room because only here may an event run out of memory. The server's step stands on it.
//!
//! What an event comes to, with the body of its records, or what stands in its place where they don't fit the journal
//! (MS-SMB2 3.3.5).
#![tactic(auto)]

mod laws;
mod logon_steps;
mod owed_records;
mod owing;
mod plan;
mod preparing;
mod reserving;
mod rulings;

pub use laws::plan_law;
pub use owed_records::{bytes_of, origin_of, owed, owing_law, path_of, timeout_of};
pub use owing::owed_by;
pub use plan::{Plan, body_of, fits, plan_event};
pub use preparing::{Prepared, prepare};
pub use reserving::ready;
pub use rulings::{
    Ruling, all_lost_records, at_connection, lost_records, rule, ruling_law, without_records,
};
