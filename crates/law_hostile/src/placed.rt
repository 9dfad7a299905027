//! In a run of a network that repeats and redirects, a request that was signed for an opening was put for it, and where nothing is forged a
//! server's end hears no other one unsealed and without a fault, but NEGOTIATE, SESSION_SETUP and an ECHO of SessionId 0.
//!
//! Each law is the contract of a public function that does nothing.

ghost use Rattle.law_hostile.specs.placed.Placed.{HeardIsOwn, SignedForOpening};

/// Each request that the client signed for an opening of a connection was put up on it, behind that opening and before the next.
pub fn signed_for_opening_law()
    ensures placed { SignedForOpening }
{}

/// Where no message is forged at an event, each message without a fault that it gives to a server's end, unsealed, was put up by the client
/// on that connection and for this opening of it, whatever the network repeats and redirects; but for NEGOTIATE, SESSION_SETUP and an
/// ECHO of SessionId 0, which owe no signature of a channel.
pub fn heard_is_own_law()
    ensures own { HeardIsOwn }
{}
