//! What an event comes to with its memory.
use crate::reserved::Ready;

/// A verdict on the event's message that was made ready, or what becomes of connections. Quiet: files stay as they are, since no
/// record fits.
#[derive(Drop)]
pub enum Prepared {
    Says { ready: Ready },
    TakesIn { connection: u32 },
    TurnsAway,
    TakesOut { connection: u32, quiet: bool },
    TakesAllOut { quiet: bool },
}
