//! Completeness of a script's run in the exchange over bytes: a script that ends in settling leaves no operation unsettled.
//!
//! Each law is a public function, whose contract is the statement, which stands in `specs`.

ghost use Rattle.law_scripts.specs.settling.Settled.{LinesSettle, ScriptsSettle};

use crate::settings_fit::script_settings_law;
use law_runs::{plain_runs_law, purse_law};
use law_ties::lists_law;
use law_wire::nothing_is_refused_law;

/// Of any lines without a forge and a flip, at most 16,777,216, with settings that fit.
pub fn lines_settle_law()
    ensures settle { LinesSettle }
{
    nothing_is_refused_law();
    lists_law();
    plain_runs_law();
    purse_law();
}

/// Of each script that is read, whatever its run draws.
pub fn scripts_settle_law()
    ensures settle { ScriptsSettle }
{
    lines_settle_law();
    script_settings_law();
}
