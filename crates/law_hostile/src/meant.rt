//! What the client's frames ask for in a run of a network that repeats and redirects, and as what a server's end hears them.
//!
//! Each law is the contract of a public function that does nothing.

ghost use Rattle.law_hostile.specs.meant.Heard.{HeardIsMeant, RequestsAreHeardAsMeant};
ghost use Rattle.law_hostile.specs.meant.Meant.{OwnRequestsAreMeant};

use law_ties::{commands_law, headers_law, trees_law};

/// Each frame that the client put up and that isn't sealed is the request of the value that it was made for: of its connection, with that
/// value's sequence, id, session and tree in its header, its command's number, body and charge; NEGOTIATE and SESSION_SETUP are unsigned,
/// but in a binding (MS-SMB2 2.2.1.2, 3.2.4.1).
pub fn own_requests_law()
    ensures meant { OwnRequestsAreMeant }
{}

/// Such a frame, whose numbers fit their fields and that is no NEGOTIATE or SESSION_SETUP, is heard as its value at whichever server's end
/// takes it, but for the connection, whose client it is of, and the fault that this end finds.
pub fn requests_are_heard_law()
    ensures heard { RequestsAreHeardAsMeant }
{
    headers_law();
    commands_law();
    trees_law();
}

/// Where no message is forged at an event, what it gives to a server's end, unsealed and without a fault, is a request that the client put
/// up on that connection for this opening, and where its numbers fit it is heard as its value, of the client that greeted there; but for
/// NEGOTIATE, SESSION_SETUP and an ECHO of SessionId 0.
pub fn heard_is_meant_law()
    ensures meant { HeardIsMeant }
{
    headers_law();
    commands_law();
    trees_law();
}
