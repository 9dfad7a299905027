//! What the server's replies answer in a run of a network that repeats and redirects.
//!
//! Each law is the contract of a public function that does nothing.

ghost use Rattle.law_hostile.specs.replied.Awaited.{TakenRepliesAreAwaited};
ghost use Rattle.law_hostile.specs.replied.Replies.{SignedRepliesAnswer};
ghost use Rattle.law_hostile.specs.replied.Taken.{TakenRepliesAnswerOwn};
ghost use Rattle.law_hostile.specs.replied.Told.{SignedRepliesTell};

use law_ties::{commands_law, headers_law, trees_law};

/// Where nothing is sealed, each reply that the server signed in a run is what the end of a connection said at an event to the one message
/// of the frame that it was given, which it heard without a fault; it was signed for that opening of the connection or for the session that
/// the message names (MS-SMB2 3.3.4.1.1).
pub fn signed_replies_law()
    ensures answer { SignedRepliesAnswer }
{}

/// Where nothing is sealed and no message is forged, a reply that a client's line takes was said on that connection in its present opening,
/// to a request that the client put up on it for this opening, heard as it was meant where its numbers fit; or to a NEGOTIATE, a
/// SESSION_SETUP or an ECHO of SessionId 0 (MS-SMB2 3.2.5.1.3).
pub fn taken_replies_law()
    ensures own { TakenRepliesAnswerOwn }
{
    headers_law();
    commands_law();
    trees_law();
}

/// Where nothing is sealed, what is read of a signed reply that answers an own request, whose numbers and whose request's fit their fields:
/// the request's id, the answer's status, session and tree, and to an operation's own request, where a success has its operation's body and
/// a refusal none, the value that it settles with and its open (MS-SMB2 2.2.1.2).
pub fn signed_replies_tell_law()
    ensures tell { SignedRepliesTell }
{
    headers_law();
    commands_law();
}

/// Where nothing is sealed and no message is forged, and the numbers of each request of a line that was put up fit: a reply that a client's
/// line takes for an operation answers that operation's own request, which was put up for this opening under the reply's message id
/// (MS-SMB2 3.2.5.1.2).
pub fn taken_replies_are_awaited_law()
    ensures awaited { TakenRepliesAreAwaited }
{
    headers_law();
    commands_law();
    trees_law();
}
