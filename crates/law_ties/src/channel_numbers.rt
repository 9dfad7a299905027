//! What the client's ready channels have in the exchange over bytes, over every run, whatever an attacker puts in place of the
//! frames on the wire: numbers of their own, by which nonces to the server differ, and a logon that is remembered.
//!
//! Each law is a public function with an empty body, whose contract is the statement.

ghost use Rattle.spec_world.specs.Statements.{ChannelsAreNumbered, ChannelNumbersRise};
ghost use Rattle.law_ties.specs.channel_numbers.Counted.{AcceptedIsAlwaysKept};

/// The ready channels have numbers of their own, none above the count of those that the client accepted in its session.
pub fn channels_are_numbered_law()
    ensures numbered { ChannelsAreNumbered }
{}

/// A session's first channel has the number 1, and each further one a number above all that were given in the session before it.
pub fn channel_numbers_rise_law()
    ensures rising { ChannelNumbersRise }
{}

/// Of a ready channel an accepted final response is remembered, with its transcript, its base key and its signing key.
pub fn accepted_kept_law()
    ensures kept { AcceptedIsAlwaysKept }
{}
