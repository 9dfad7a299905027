//! Every run of the exchange over bytes without tampering is one of the model of values, given what is left to say of the values
//! (`Bounds`).
//!
//! The law is a public function, whose contract is the statement.

ghost use Rattle.law_dialogs.specs.runs.Bounds.{RunsGoInStep};

use law_wire::nothing_is_refused_law;

/// Over a run without tampering the values are those of a run of the model, each request that waits is heard as the message that it was
/// made for, and the two ends of each connection are tied, by the facts on bytes, where of each world on the way `Bounds` hold: that
/// numbers fit their fields and messages their frames, whose messages wait, and that an answer tells what was asked. What the laws on
/// what waits say of each world isn't asked.
pub fn runs_law()
    ensures runs { RunsGoInStep }
{
    nothing_is_refused_law();
}
