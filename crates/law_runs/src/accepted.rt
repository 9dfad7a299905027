//! What a client accepts in a run of the exchange over bytes without tampering was made by a server of that run.
//!
//! The law is a public function, whose contract is the statement.

ghost use Rattle.law_runs.specs.accepted.Made.{PlainRunsAreMade};

use crate::logons::wire_facts_law;
pub use crate::untampered::plain_runs_law;
use law_dialogs::runs_law;
use law_wire::nothing_is_refused_law;

/// Each final response of a SESSION_SETUP on which the client accepted a session or a channel is noted among those that servers signed,
/// with the same base key, chain value, algorithm, message and transcript (MS-SMB2 3.2.5.3.1, 3.3.5.5.3).
pub fn accepted_is_made_law()
    ensures made { PlainRunsAreMade }
{
    nothing_is_refused_law();
    wire_facts_law();
    runs_law();
}
