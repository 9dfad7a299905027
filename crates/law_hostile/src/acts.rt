//! What acts in a run of a network that repeats and redirects was signed, or sealed, as owed.
//!
//! Each law is the contract of a public function that does nothing.

ghost use Rattle.law_hostile.specs.acts.Acting.{ActsAreGuarded, FaultyActsNot};

/// A message that isn't signed or sealed as owed doesn't act, whatever it asks and whatever the server has.
pub fn faulty_acts_not_law()
    ensures never { FaultyActsNot }
{}

/// Where a message that the network gives to a server's end acts, its frame has a message that was sealed, or whose signature verifies
/// under the keys of that connection, or that owes neither.
pub fn acts_are_guarded_law()
    ensures guarded { ActsAreGuarded }
{}
