//! What keeps the two ends of each connection tied in the exchange over bytes: the Take of a logon's final response.
//!
//! Each law is a public function with an empty body, whose contract is the statement.

ghost use Rattle.law_dialogs.specs.acceptance.Accepting.{BindsAreKept, AcceptsAreKept};

/// The Take of a binding's final response leaves a tied world tied, where the client's last session was accepted: its channel is a line
/// under the keys that the server's end has (MS-SMB2 3.2.5.3.3).
pub fn binds_law()
    ensures kept { BindsAreKept }
{}

/// So does the Take of a new session's final response, behind which its TREE_CONNECT goes up (MS-SMB2 3.2.5.3.1), where the session's id
/// and the TREE_CONNECT fit and no other dialog is on its way.
pub fn accepts_law()
    ensures kept { AcceptsAreKept }
{}
