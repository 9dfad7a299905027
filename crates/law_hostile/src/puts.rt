//! What was put and what was signed in a run of a network that repeats and redirects stays, and each message that was
//! signed was put.
//!
//! Each law is the contract of a public function that does nothing.

ghost use Rattle.law_hostile.specs.puts.Puts.{PutStays, SignedReplyWasPut, SignedStays, SignedWasPut, WatchesRun};

/// What stands in the lists of all that was put stays at its place (`puts`); so does what was signed (`signed`). What is watched of a run
/// is that run (`watches`).
pub fn put_stays_law()
    ensures puts { PutStays }
    ensures signed { SignedStays }
    ensures watches { WatchesRun }
{}

/// Each message that the client signed in a run stands in the list of all that was put up.
pub fn signed_was_put_law()
    ensures put { SignedWasPut }
{}

/// The bytes of each message that the server signed in a run stand in one piece in a frame of the list of all that was put down.
pub fn signed_reply_was_put_law()
    ensures put { SignedReplyWasPut }
{}
