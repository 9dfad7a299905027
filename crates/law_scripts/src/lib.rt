//! What a script sets up and drives, and all four sentences of the headline for its run. It is a room because it is the
//! top of the laws, without premises on a script. The command `drill` stands on it.
#![tactic(auto)]

mod drill;
mod generated;
mod headline;
mod quiet_runs;
mod schedules;
pub mod script_runs;
mod script_setup;
mod settings_fit;
mod settling;

pub use drill::{made_headline_law, script_headline_law};
pub use generated::{gen_reads_back_law, lines_read_back_law, made_lines_law};
pub use headline::headline_law;
pub use quiet_runs::{lines_end_law, scripts_end_law};
pub use schedules::{schedule_law, script_schedule_law};
pub use script_runs::{run_course_law, run_refusal_law};
pub use settings_fit::{default_settings_law, script_counts_law, script_settings_law};
pub use settling::{lines_settle_law, scripts_settle_law};
