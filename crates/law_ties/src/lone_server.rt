//! A frame over a server that no one else uses, whose events had no mishap, comes to the connection's own step: `owned_step` is
//! `connection_step` there. And it is the sequence of its single events: `owned_of` is `given_of` where each event is given the answer of the
//! step at the state that it finds.
//!
//! Each law is a public function with an empty body, whose contract is the statement.

ghost use Rattle.law_ties.specs.lone_server.Own.{NothingBefell, OwnStep};
ghost use Rattle.law_ties.specs.lone_server.Single.{SingleEvents};

/// Where just as much is told as the frame has events, and nothing befell any of them.
pub fn own_step_law()
    ensures own { OwnStep }
{}

/// Where just as much is told as the frame has events, none of them found no memory, and the server goes on.
pub fn nothing_befell_law()
    ensures none { NothingBefell }
{}

/// Of every frame of a connection that has random bytes left for as many SESSION_SETUPs as the frame has messages.
pub fn single_events_law()
    ensures single { SingleEvents }
{}
