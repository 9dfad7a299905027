//! The headline of each script that `drill` reads, with no premise on what it sets up: its creates, locks and unlocks act at most once, no
//! write acts behind a newer channel sequence, a file that denies writers is one connection's, and a session is accepted only on what was
//! negotiated. And completeness: a script that ends in settling leaves no operation unsettled. What a program that drives a script calls
//! for the sentence that it ends with.
//!
//! Each law is a public function, whose contract is the statement, which stands in `specs`.

ghost use Rattle.law_scripts.specs.drill.Drills.{MadeScriptsHold, ScriptsHold};

use crate::generated::made_lines_law;
use crate::headline::headline_law;
use crate::quiet_runs::scripts_end_law;
use crate::settings_fit::{default_settings_law, script_counts_law, script_settings_law};
use crate::settling::scripts_settle_law;

/// Of the run of any script that is read, whatever it draws: the first three sentences where no line tampers with what
/// is on its way, the last
/// one of all; and where it ends in settling and no line tampers, no operation is left unsettled.
pub fn script_headline_law()
    ensures holds { ScriptsHold }
{
    headline_law();
    script_settings_law();
    script_counts_law();
    scripts_settle_law();
    scripts_end_law();
}

/// Of the run of the script that a key gives, with up to 1,048,576 operations, whatever the run draws: all four sentences.
pub fn made_headline_law()
    ensures holds { MadeScriptsHold }
{
    headline_law();
    default_settings_law();
    made_lines_law();
}
