//! The message ids of the client's frames that aren't sealed, and of the values that they are made for, rise in each opening of a
//! connection, in a run of a network that repeats and redirects.
//!
//! Each law is the contract of a public function that does nothing.

ghost use Rattle.law_hostile.specs.ids.OwnIds.{OwnFramesArePlain, OwnFramesBearIds, OwnFramesRise, OwnIdsRise};

/// Of two frames that the client put up in one opening of a connection the later one was made for a value of a greater message id,
/// whatever the network gave to either end between them (MS-SMB2 3.2.4.1.3).
pub fn own_ids_rise_law()
    ensures rise { OwnIdsRise }
{}

/// Each frame that the client put up and that isn't sealed is one message, whose header has its value's id (`bear`); so these ids rise in
/// each opening of a connection (`rise`). Where the client offers no cipher, none is sealed (`plain`).
pub fn own_frames_law()
    ensures bear { OwnFramesBearIds }
    ensures rise { OwnFramesRise }
    ensures plain { OwnFramesArePlain }
{}
