//! Laws of the exchange model on scripts, most of them on those whose own lines lose nothing: no cut, drop, restart or crash.
//!
//! Each law is a public function with an empty body; its contract is the statement, which stands in `specs`.

pub mod example;

ghost use Rattle.law_outcomes.specs.scripts.Scripts.{ScriptCourseRuns, FinishesRefused, GivesNothingUp, CutsSettled};
ghost use Rattle.law_outcomes.specs.scripts.Scripts.{DropsLetGo, LosesNothing, AllEnd};

/// The events of any script's course lead to the course's world (`runs`). Where the client gives all up, since no session
/// comes, and no line of the script says so, a dialog was refused before, and what it gives up with is the last such refusal
/// (`finishes`). So nothing is given up of a client none of whose dialogs was refused (`gives_up`).
pub fn course_law()
    ensures runs { ScriptCourseRuns }
    ensures finishes { FinishesRefused }
    ensures gives_up { GivesNothingUp }
{}

/// In the course of a script whose own lines lose nothing, wherever it settles, a channel is cut only where every operation is
/// settled (`cuts`), and a connection is dropped only where the client has let it go (`drops`). So the client loses nothing of
/// an operation, unless it gives all up because no session comes (`loses`).
pub fn quiet_settle_law()
    ensures cuts { CutsSettled }
    ensures drops { DropsLetGo }
    ensures loses { LosesNothing }
{}

/// Such a script, with settling as its last line, settles each operation that was taken as Ok or Refused with the reply of
/// the server's step to a message of its own, or as NoSlot or NoOpen by their causes. Two premises: nothing was given up, since
/// no session came, while an operation was unsettled, and the client has counted fewer sessions than 32 bits hold.
pub fn script_outcomes_law()
    ensures ends { AllEnd }
{}
