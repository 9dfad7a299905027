//! What the exchange model's server answers: what a refusal has, who is granted a session or a channel, and which trees are told.
//!
//! Each law is a public function with an empty body, whose contract is the statement.

ghost use Rattle.law_answers.specs.answers.Bare.{RefusalsAreBare};
ghost use Rattle.law_answers.specs.answers.Logs.{SuccessesLogOn};
ghost use Rattle.law_answers.specs.answers.Trees.{TreesAreTold, TreesAreConnected};

/// Whatever waits at the front, a reply with another status than SUCCESS has no body.
pub fn refusals_are_bare_law()
    ensures bare { RefusalsAreBare }
{}

/// A SESSION_SETUP without a fault to which the server says SUCCESS, be it of a new session or of a further channel, shows a logon.
pub fn successes_log_on_law()
    ensures logs { SuccessesLogOn }
{}

/// A reply tells the tree of its request, or one whose id is at most the last one; which one isn't said (MS-SMB2 3.3.5.7).
pub fn trees_are_told_law()
    ensures told { TreesAreTold }
{}

/// The success of a TREE_CONNECT without a fault tells a ShareType, Capabilities and a MaximalAccess that fit their fields (MS-SMB2
/// 2.2.10).
pub fn trees_are_connected_law()
    ensures connected { TreesAreConnected }
{}
