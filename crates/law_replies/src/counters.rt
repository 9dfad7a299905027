//! How far the counters of a run in the exchange model come.
//!
//! Each law is a public function with an empty body, whose contract is the statement.

ghost use Rattle.law_replies.specs.counters.Bounds.{RunsAreBounded};
ghost use Rattle.law_replies.specs.counters.Low.{IdsAreLow};
ghost use Rattle.law_replies.specs.counters.Fits.{OperationsFit};

/// Behind every run no more operations were taken than were submitted, and the server's epoch is at most one above the number of
/// restarts.
pub fn runs_are_bounded_law()
    ensures bounded { RunsAreBounded }
{}

/// Behind every run no SessionId, in the client, in what waits for the server or in what waits for the client, is above the last one
/// of the epoch that follows as many restarts, and no TreeId above the last one of a session.
pub fn ids_are_low_law()
    ensures low { IdsAreLow }
{}

/// Behind every run each operation that was taken keeps the limits at which it is taken, and the moment is at most the last one.
pub fn operations_fit_law()
    ensures fit { OperationsFit }
{}
