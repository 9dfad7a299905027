//! No nonce comes twice at a server whose connections take turns, one event each (MS-SMB2 2.2.41): what each event leaves of the numbers
//! that sessions drew, and what a frame's answer leaves of the seals, whatever other connections did between the frame's events.
//!
//! The law is a public function with an empty body, whose contract is the statement.

ghost use Rattle.law_nonces.specs.event_nonces.Events.{AloneDraws, HeardDraws, OtherDraws, SealsAlong};

/// Of each message that the server heard (`heard`), each connection that was made or lost (`other`), each open that expired alone where
/// memory ran out (`alone`), and each frame that was answered (`sealed`).
pub fn event_nonces_law()
    ensures heard { HeardDraws }
    ensures other { OtherDraws }
    ensures alone { AloneDraws }
    ensures sealed { SealsAlong }
{}
