//! A message id is taken at most once between two openings of a server's end, whatever it is given (MS-SMB2 3.3.5.2.3).
//!
//! Each law is the contract of a public function that does nothing.

ghost use Rattle.law_hostile.specs.taken_ids.Hands.{FramesTakeOnce};
ghost use Rattle.law_hostile.specs.taken_ids.TakenIds.{OpeningTakesOnce};
ghost use Rattle.law_hostile.specs.taken_ids.TakenOnce.{SignedTakesOnce};

/// Of all frames that one opening of a server's end is given, whatever they are and in whatever order, no two messages that it takes
/// have one message id: an id that was taken never comes back to the window.
pub fn frames_take_once_law()
    ensures once { FramesTakeOnce }
{}

/// In every repeat run each message id is taken at most once by the server's end of a connection between two openings of it.
pub fn opening_takes_once_law()
    ensures once { OpeningTakesOnce }
{}

/// In every repeat run no two events take, with a valid signature and for one opening of a connection, requests of one message id: neither
/// one request twice, nor two requests, whatever the network repeats and redirects.
pub fn signed_takes_once_law()
    ensures once { SignedTakesOnce }
{}
