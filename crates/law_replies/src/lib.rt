//! What the server keeps and tells fits its fields, on every run and along a script's course. It is a room because it
//! is what lets each reply of the model be written as bytes. The laws on runs and on scripts, and the server's code,
//! stand on it.
#![tactic(auto)]

mod any_state;
pub mod counters;
pub mod courses;
pub mod fields;
mod replies;

pub use any_state::kept_law;
pub use counters::{ids_are_low_law, operations_fit_law, runs_are_bounded_law};
pub use courses::{course_runs_law, courses_are_short_law, first_error_law, plain_courses_law};
pub use fields::{bodies_fit_law, rows_always_fit_law};
pub use replies::replies_law;
