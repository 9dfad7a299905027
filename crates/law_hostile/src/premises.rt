//! Of which runs of a network that repeats and redirects the statement's premise on sizes holds.
//!
//! The law is the contract of a public function that does nothing.

ghost use Rattle.law_hostile.specs.premises.Premises.{ShortRunsAreBounded};

/// Where settings fit, a run of fewer than 2^32 - 1 events has few enough restarts and operations.
pub fn short_runs_law()
    ensures bounded { ShortRunsAreBounded }
{}
