//! What the events of the exchange over bytes do to its values: each event does what it does in the model of values. Of one that
//! reads no frame this holds whatever stands on the wires; of a Serve, a Take and a Crash that keeps its front it holds where the
//! front is heard as what it was made for.
//!
//! Each law is a public function with an empty body, whose contract is the statement.

ghost use Rattle.law_ties.specs.events.Own.{OwnEvents};
ghost use Rattle.law_ties.specs.events.Fronts.{FrontsAreServed, FrontsAreTaken};
ghost use Rattle.law_ties.specs.events.InStep.{TiedGoesInStep, TiesAreKept};
ghost use Rattle.law_ties.specs.events.Taken.{TakesAreKept, TreeTakesAreKept};

use law_wire::nothing_is_refused_law;

/// Of every world, also of one that was tampered with, and of every event but a Serve, a Take and a Crash that keeps its front.
pub fn own_events_law()
    ensures own { OwnEvents }
{}

/// A Serve and a Crash that keeps its front, where the front of what goes up reads as its message, its ids are held and a nonce is
/// left: the server takes that message, with the answer of the model of values (MS-SMB2 3.3.5.2).
pub fn fronts_served_law()
    ensures served { FrontsAreServed }
{}

/// A Take, where the front of what comes down opens or verifies and is heard as the reply that it was made for; in a dialog a
/// response of the status that is due has no fault besides (MS-SMB2 3.2.5.1).
pub fn fronts_taken_law()
    ensures taken { FrontsAreTaken }
{}

/// Of a world whose ends are tied as `IsTied` says, and whose replies come as `RepliesAreDue` says: each event does to its values what
/// it does in the model, and each request that waits is heard as the message that it was made for.
pub fn in_step_law()
    ensures in_step { TiedGoesInStep }
{
    nothing_is_refused_law();
}

/// The opening state is tied, and each event that closes ends or is the client's alone leaves a world tied, where each reply that comes
/// is of an operation that was taken: all but an Open, a Push, a Serve, a Take and a Crash that keeps its front, of which this isn't
/// proved here.
pub fn ties_law()
    ensures kept { TiesAreKept }
{}

/// A Take leaves a tied world tied, where replies come as `RepliesAreDue` says: of a line's reply of which no other copy is on its way,
/// and of a dialog's response of another status than the one that is due.
pub fn takes_law()
    ensures kept { TakesAreKept }
{}

/// So does the Take of the success of a new session's TREE_CONNECT, by which its channel is ready, where replies come as `RepliesAreDue`
/// says, no other copy of it is on its way, and no other dialog is.
pub fn tree_takes_law()
    ensures kept { TreeTakesAreKept }
{}
