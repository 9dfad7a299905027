//! Between two events of a run of a network that repeats and redirects nothing is on its way in the world itself.
//!
//! The law is the contract of a public function that does nothing.

ghost use Rattle.law_hostile.specs.empties.Empties.{ListsAreEmpty};

/// Between two events no list of the world holds anything, neither a frame nor a value, on any connection: no step finds anything else on
/// its connection than the one message that is given to it. That what an end put was kept beside the world isn't said here.
pub fn lists_are_empty_law()
    ensures empties { ListsAreEmpty }
{}
