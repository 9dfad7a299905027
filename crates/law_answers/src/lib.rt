//! Settling leaves no operation open, and which answers, logons and statuses the model's server gives. It is a room
//! because these laws on answers need sessions and no acts. The laws on outcomes, on replies and on scripts stand on
//! it.
#![tactic(auto)]

pub mod answers;
pub mod completeness;
pub mod sealing_logons;
pub mod statuses;
pub mod waiting_dialogs;

pub use answers::{
    refusals_are_bare_law, successes_log_on_law, trees_are_connected_law, trees_are_told_law,
};
pub use completeness::{bounds_law, session_found_law, settle_law};
pub use sealing_logons::logons_seal_law;
pub use statuses::{creates_tell_law, statuses_fit_law};
pub use waiting_dialogs::messages_are_exact_law;
