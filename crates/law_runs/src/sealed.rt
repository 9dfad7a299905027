//! What is on its way under a seal, in a run of the exchange over bytes without tampering, is noted among what the two ends sealed.
//!
//! The law is a public function, whose contract is the statement.

ghost use Rattle.law_runs.specs.sealed.Kept.{PlainSealsAreKept};

pub use crate::accepted::accepted_is_made_law;
use crate::logons::wire_facts_law;
pub use crate::untampered::plain_runs_law;
use law_dialogs::runs_law;
use law_wire::nothing_is_refused_law;

/// Each frame that waits on a connection and begins as a sealed one is spelled by a seal that is noted, of the session and the direction,
/// under the keys of the end that sent it (MS-SMB2 2.2.41, 3.1.4.3).
pub fn seals_are_kept_law()
    ensures kept { PlainSealsAreKept }
{
    nothing_is_refused_law();
    wire_facts_law();
    runs_law();
}
