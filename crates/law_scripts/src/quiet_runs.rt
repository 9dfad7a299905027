//! Completeness of a script's run in the exchange over bytes, where its own lines lose nothing: what becomes of each operation.
//!
//! Each law is a public function, whose contract is the statement, which stands in `specs`.

ghost use Rattle.law_scripts.specs.quiet_runs.Quiet.{LinesEnd, QuietScriptsEnd};

use crate::settings_fit::script_settings_law;
pub use crate::settling::scripts_settle_law;
use law_runs::{plain_runs_law, purse_law};
use law_ties::lists_law;
use law_wire::nothing_is_refused_law;

/// Lines without a forge and a flip, and without a cut, a drop, a restart and a crash, that end in settling: each
/// operation is Ok or Refused
/// with the reply of the server's step to a message of its own, or had no slot or no open, by their causes. One
/// premise: nothing was given up
/// while an operation was unsettled, as it is where a logon is refused.
pub fn lines_end_law()
    ensures end { LinesEnd }
{
    nothing_is_refused_law();
    lists_law();
    plain_runs_law();
    purse_law();
}

/// So does each operation of such a script that is read, whatever its run draws.
pub fn scripts_end_law()
    ensures end { QuietScriptsEnd }
{
    lines_end_law();
    script_settings_law();
}
