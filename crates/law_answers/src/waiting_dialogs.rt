//! What waits of a dialog in the exchange model, to the letter.
//!
//! The law is a public function with an empty body, whose contract is the statement.

ghost use Rattle.law_answers.specs.waiting_dialogs.Exact.{MessagesAreExact};

/// On every run, behind every event, what waits for the server on an open connection that is in its dialog is the message of its stage, as
/// the client would make it now, but for its MessageId: of its session in a binding, and of the session in the making else.
pub fn messages_are_exact_law()
    ensures exact { MessagesAreExact }
{}
