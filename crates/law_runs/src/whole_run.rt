//! All that is said of a run of the exchange over bytes without tampering, of settings that fit: the parts together.
//!
//! The law is a public function, whose contract is the statement.

ghost use Rattle.law_ties.specs.wire_facts.Steps.{StepLaw};

use crate::accepted::accepted_is_made_law;
use crate::binding_room::room_law;
use crate::sealed::seals_are_kept_law;
use crate::untampered::plain_runs_law;

/// Over such a run the values are those of a run of the model, each end hears what the other sent, no nonce comes twice in a session and a
/// direction, what a client accepted a server made, and what is sealed on its way is noted.
pub fn steps_law()
    ensures steps { StepLaw }
{
    plain_runs_law();
    accepted_is_made_law();
    seals_are_kept_law();
    room_law();
}
