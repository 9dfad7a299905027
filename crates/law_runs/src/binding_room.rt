//! Where the success of a binding comes, in a run of the exchange over bytes without tampering, its session has a number for one more
//! channel: of 65,535 the server gives each once.
//!
//! The law is a public function, whose contract is the statement.

ghost use Rattle.law_runs.specs.binding_room.Room.{PlainRunsHaveRoom};

pub use crate::accepted::accepted_is_made_law;
use crate::logons::wire_facts_law;
pub use crate::sealed::seals_are_kept_law;
pub use crate::untampered::plain_runs_law;
use law_dialogs::runs_law;
use law_wire::nothing_is_refused_law;

/// The channels that a client has bound, and those whose success is on its way, are no more than the server numbered, which are 65,535 of a
/// session at most (MS-SMB2 3.3.5.5.2).
pub fn room_law()
    ensures room { PlainRunsHaveRoom }
{
    nothing_is_refused_law();
    wire_facts_law();
    runs_law();
}
