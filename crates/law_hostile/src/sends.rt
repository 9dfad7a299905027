//! What the client sends in a run of a network that repeats and redirects, as values, and what the server's ends hear of it.
//!
//! Each law is the contract of a public function that does nothing.

ghost use Rattle.law_hostile.specs.sends.ActsSends.{ActsAreSends};
ghost use Rattle.law_hostile.specs.sends.HeardSends.{HeardWasSent, TakenAnswersSend};
ghost use Rattle.law_hostile.specs.sends.OwnNumbers.{OwnLinesFit};
ghost use Rattle.law_hostile.specs.sends.OwnSends.{OwnSends};
ghost use Rattle.law_hostile.specs.sends.TreeSends.{TakenTreesAnswerSend};

use law_ties::{commands_law, headers_law, trees_law};
use law_wire::negotiate_request_law;

/// Each frame that the client put up was made for a message that the model's client sends on that connection at an event of the run, as it
/// stood there: a NEGOTIATE at an Open, an operation's own request or the one that attaches its open at a push of a ready channel, and the
/// next request of a dialog at the response that was due (MS-SMB2 3.2.4.1); and it was put for the opening that stood behind that event.
pub fn own_sends_law()
    ensures sends { OwnSends }
{}

/// Where nothing is sealed and no message is forged, and the run's restarts and operations are few enough: the numbers of each request of a
/// line that the client put up fit their fields, whatever the network gives to either end.
pub fn own_lines_fit_law()
    ensures fit { OwnLinesFit }
{
    headers_law();
    commands_law();
    trees_law();
}

/// In such a run, each message that a server's end hears unsealed and without a fault is just the message that the model's client sent on
/// a line of that connection in its present opening, in each part; but for NEGOTIATE, SESSION_SETUP and an ECHO of SessionId 0.
pub fn heard_was_sent_law()
    ensures sent { HeardWasSent }
{
    headers_law();
    commands_law();
    trees_law();
    negotiate_request_law();
}

/// In such a run, each reply that a client's line takes for an operation answers the request that the model's client sent for it on that
/// connection in its present opening, under the id of the reply (MS-SMB2 3.2.5.1.2).
pub fn taken_answers_send_law()
    ensures answers { TakenAnswersSend }
{
    headers_law();
    commands_law();
    trees_law();
}

/// In such a run, an event that counts as an operation's act gives its server's end a frame that was put on that connection for its present
/// opening, for the operation's own message, which the model's client sent there; and it does to the server what the model does at that
/// message, whose answer acts.
pub fn acts_are_sends_law()
    ensures sends { ActsAreSends }
{
    headers_law();
    commands_law();
    trees_law();
    negotiate_request_law();
}

/// In such a run, each response by which a dialog of the client gets its tree answers the TREE_CONNECT that the model's client sent for that
/// dialog on that connection in its present opening, under the id of the response (MS-SMB2 3.2.5.5).
pub fn taken_trees_answer_law()
    ensures answers { TakenTreesAnswerSend }
{
    headers_law();
    commands_law();
    trees_law();
    negotiate_request_law();
}
