//! What the laws on the exchange model say of what waits in a world over bytes whose values are those of a run of the model, as far as
//! the laws on both ends of a connection ask it.
//!
//! Each law is a public function with an empty body, whose contract is the statement.

ghost use Rattle.law_dialogs.specs.waiting.Due.{WorldsAreDue};
ghost use Rattle.law_dialogs.specs.waiting.Alone.{DialogsAreAlone};
ghost use Rattle.law_dialogs.specs.waiting.Apart.{SessionsAreApart};

/// Of a world whose values are those of a run of the model: replies are due as they come and are of operations that were taken, an
/// operation has one copy on a connection, a new session's dialog is the only one on its way, a binding is of the last accepted session,
/// and a dialog's message is alone in its list where the client waits for it.
pub fn worlds_are_due_law()
    ensures due { WorldsAreDue }
{}

/// On every run of the model, behind every event, a dialog's message that waits for the server is alone in its list, on whichever
/// connection, also on one whose client's end has closed.
pub fn dialogs_are_alone_law()
    ensures alone { DialogsAreAlone }
{}

/// In a tied world whose values are those of a run of the model, the session that a SESSION_SETUP's success begins is none of which a
/// signed SESSION_SETUP or a new session's success waits, nor the last one that the client accepted.
pub fn sessions_are_apart_law()
    ensures apart { SessionsAreApart }
{}
