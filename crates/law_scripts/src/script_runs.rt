//! The run of a script that was read, line by line, in the exchange over bytes: it is the course of the script's lines,
//! or its refusal is that
//! of the first line that isn't met.
//!
//! Each law is a public function with an empty body; its contract is the statement, which stands in `specs`.

ghost use Rattle.law_scripts.specs.script_runs.Runs.{RefusalsAreFirst, SchedulesAreCourses};

/// A run without a refusal is the course of the script's lines, each of which is met.
pub fn run_course_law()
    ensures courses { SchedulesAreCourses }
{}

/// A run's refusal is that of the first line that isn't met.
pub fn run_refusal_law()
    ensures first { RefusalsAreFirst }
{}
