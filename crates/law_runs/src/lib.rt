//! All that is said of a run over bytes without tampering, of settings that fit. It is a room because it joins the laws
//! below into one statement on a run. The laws on scripts and the command `drill` stand on it.
#![tactic(auto)]

mod accepted;
mod binding_room;
mod logons;
pub mod purses;
mod sealed;
mod untampered;
mod whole_run;

pub use accepted::accepted_is_made_law;
pub use binding_room::room_law;
pub use logons::{tokens_law, wire_facts_law};
pub use purses::purse_law;
pub use sealed::seals_are_kept_law;
pub use untampered::plain_runs_law;
pub use whole_run::steps_law;
