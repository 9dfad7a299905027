//! What comes of a script that the grammar has, where nothing outside fails.
//!
//! The law is a public function with an empty body, whose contract is the statement.

ghost use Rattle.run_command.specs.Running.{RunsOver};
ghost use Rattle.run_command.specs.Complete.{EndsWell};

use base_outside::Net;

/// A source that tells its bytes gives such a script, and neither source nor sink fails: the command ends with 0, 8 or 11.
pub fn complete_law<N: Net>()
    ensures { EndsWell N (RunsOver N.L.told N.L.given N.L.left N.L.written N.L.faults N.L.ended N.faults) }
{}
