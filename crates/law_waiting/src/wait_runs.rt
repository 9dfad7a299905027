//! What holds of a server with waiting LOCKs at each event, and over each list of events.
//!
//! Each law is a public function with an empty body, whose contract is the statement.

ghost use Rattle.std.specs.Prelude.{List};
ghost use Rattle.spec_exchange.specs.State.{Server};
ghost use Rattle.law_waiting.specs.wait_steps.WaitStep.{WaitTurn, WaitState, wait_step};
ghost use Rattle.law_waiting.specs.wait_runs.WaitRuns.{LockComes, RunWaits, TurnGoes};

/// At each event, whatever befalls its steps: who stands or is answered stood before or came, and nobody is lost but at an end or where
/// the disk failed; each goes to the server once at most, in turn, and nobody behind an act; the event's own answer is an interim one
/// exactly where it became a waiter, which then made no step; where nobody starves all that wait are held up by ranges that stand; an
/// end drops the waiters of its connection (`goes`). A LOCK that would wait does, or finds no place and is answered
/// INSUFFICIENT_RESOURCES (`comes`).
pub fn each_turn_law()
    ensures goes { (w : WaitState) (t : WaitTurn) → TurnGoes w t (wait_step w t) }
    ensures comes { (w : WaitState) (t : WaitTurn) → LockComes w t (wait_step w t) }
{}

/// Over every list of events, whatever befalls their steps: AsyncIds count up; a message has one final response at most, behind its
/// interim one, and acts in one step of the server at most, and in none behind its final response; and each event goes as `each_turn_law` says.
pub fn waiting_law()
    ensures { (s : Server) (turns : List WaitTurn) → RunWaits s turns }
{}
