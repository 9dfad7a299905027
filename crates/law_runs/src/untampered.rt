//! Every run of the exchange over bytes without tampering is one of the model of values, of settings that fit, of fewer restarts than an
//! epoch of 32 bits has values and of fewer operations than a CreateGuid has numbers for.
//!
//! The law is a public function, whose contract is the statement.

ghost use Rattle.law_runs.specs.untampered.Plain.{PlainRunsGoInStep};

use crate::logons::wire_facts_law;
use law_dialogs::runs_law;
use law_nonces::plain_nonces_law;
use law_wire::nothing_is_refused_law;

/// Over a run without tampering the values are those of a run of the model, each request and each reply that waits is heard as what it
/// was made for, and the two ends of each connection are tied: ids, guids, trees, slots, statuses, moments and what is told fit, and so do
/// requests and replies their frames. No nonce then comes twice in a session and a direction, where no binding waits for its last response
/// behind 65,535 channels of a session.
pub fn plain_runs_law()
    ensures runs { PlainRunsGoInStep }
{
    nothing_is_refused_law();
    wire_facts_law();
    runs_law();
    plain_nonces_law();
}
