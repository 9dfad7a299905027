//! The law on lists: over every run of the exchange over bytes, tampered with or not, a connection has as many frames on its way
//! as the model of values has messages, in both directions. So where that model finds no message there is no frame, and the
//! other way round, and an event is refused exactly where the world doesn't meet it.
//!
//! Each law is a public function with an empty body, whose contract is the statement.

ghost use Rattle.spec_world.specs.Notes.{RefusalsAreTold};
ghost use Rattle.spec_world.specs.Statements.{ListsAreAlong};

/// Of each connection's lists, behind every event.
pub fn lists_law()
    ensures along { ListsAreAlong }
{}

/// Of every event but a Finish: NoChannel, NothingThere or InUse is told exactly where the world doesn't meet it.
pub fn refusals_law()
    ensures told { RefusalsAreTold }
{}
