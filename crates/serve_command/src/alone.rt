//! A connection of which no one else's events come between, nor a renewal of the journal: what it is told is what it would be told by a
//! server of its own.
//!
//! The law is a public function with an empty body but for the law that it rests on; its contract is the statement.

ghost use Rattle.serve_command.specs.Alone.{AloneFrames};

use law_ties::single_events_law;

/// Of each frame that its check lets pass and that was taken, and whose turns stand in a row in the history of a server that many use,
/// where the journal wasn't written anew in front of one of them: its step is `owned_step` with just so many mishaps as its events ask,
/// which is `connection_step` where none befell. An event without memory left the server as before or behind one expiry, and unless the
/// server stopped the place behind the turns found what the step left.
pub fn alone_law()
    ensures alone { AloneFrames }
{
    single_events_law();
}
