//! A schedule over bytes has a run: each of its lines is met by the world of the lines in front of it, or the schedule ends at the first
//! that isn't, with its cause. So nothing that is said of the runs of scripts can be empty because a script had none.
//!
//! Each law is a public function, whose contract is the statement, which stands in `specs`.

ghost use Rattle.law_scripts.specs.schedules.Schedules.{SchedulesEnd, ScriptsEnd};

use law_replies::course_runs_law;
use law_ties::refusals_law;

/// Of any lines but those that give up, which no script has, under any settings.
pub fn schedule_law()
    ensures ends { SchedulesEnd }
{
    course_runs_law();
    refusals_law();
}

/// Of the lines of any script.
pub fn script_schedule_law()
    ensures ends { ScriptsEnd }
{
    schedule_law();
}
