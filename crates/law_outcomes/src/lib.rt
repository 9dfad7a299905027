//! The invariant under the sentences on acts, what refusals and outcomes say, and what holds of a script's run in the
//! model. It is a room because it joins the laws on acts into what a script needs. The laws on scripts over bytes stand
//! on it.
#![tactic(auto)]

mod invariant;
pub mod outcomes;
mod refusals;
pub mod scripts;

pub use invariant::invariant_law;
pub use outcomes::{causes_law, lossless_law, reads_law};
pub use refusals::refused_edits_law;
pub use scripts::{course_law, example, quiet_settle_law, script_outcomes_law};
