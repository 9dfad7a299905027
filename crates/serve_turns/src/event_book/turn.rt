//! What a connection gives a server in its turn, and what it is told.
ghost use Rattle.std.specs.Prelude.{◌≡◌, true};
ghost use Rattle.serve_turns.specs.event_book.Places.{is_asked};

use base_outside::Standing;
use conn_core::{CheckedFrame, Reply, ServeError, Told};

/// A message of a checked frame, which asks something of the server, and what its connection tells of it. The frame is moved in, so that
/// none of its bytes is copied.
#[derive(Drop)]
pub struct Asks {
    pub frame: CheckedFrame,
    pub at: usize,
    pub told: Told,
    ghost asked: { is_asked frame at ≡ true },
}

/// What a turn is for.
#[derive(Drop)]
pub enum What {
    /// The connection of this number was made (MS-SMB2 3.3.5.1).
    Accept(u32),
    /// A message came (3.3.5.2).
    Message(Asks),
    /// The connection of this number is lost (3.3.7.1).
    End(u32),
}

/// One event of one connection. `now` is the moment in units of 100 nanoseconds since 1601.
#[derive(Drop)]
pub struct Turn {
    pub now: u64,
    pub what: What,
}

/// What became of it. A message's frame is handed back. A message of which nothing was asked has no reply. `standing` is what the
/// connection has at the server then, for its link alone.
#[derive(Drop)]
pub struct Answer {
    pub frame: Option<CheckedFrame>,
    pub reply: Option<Result<Reply, ServeError>>,
    pub standing: Standing,
}
