//! The ties of a dialog, and with them each run over bytes without tampering as a run of the model of values. It is a
//! room because a dialog's messages need keys that do not stand yet, unlike all later ones. The laws on runs and on
//! scripts stand on it.
#![tactic(auto)]

mod acceptance;
pub mod dialog_requests;
mod dialog_responses;
pub mod runs;
pub mod waiting;

pub use acceptance::{accepts_law, binds_law};
pub use dialog_requests::{dialog_crashes_law, dialog_serves_law};
pub use dialog_responses::goes_on_law;
pub use runs::runs_law;
pub use waiting::{dialogs_are_alone_law, sessions_are_apart_law, worlds_are_due_law};
