//! What keeps the two ends of each connection tied in the exchange over bytes, by the facts on bytes: the Take of a dialog's response,
//! behind which its next SESSION_SETUP goes up.
//!
//! The law is a public function with an empty body, whose contract is the statement.

ghost use Rattle.law_dialogs.specs.dialog_responses.Talking.{GoingOnIsKept};

/// The Take of a NEGOTIATE's success and of an interim response leaves a tied world tied, where the client is the settings', ids fit
/// their fields, and a new session's dialog is the only one (MS-SMB2 3.2.5.2, 3.2.5.3).
pub fn goes_on_law()
    ensures kept { GoingOnIsKept }
{}
