//! What a thread knows of the connection that it serves.
use base_outside::{News, Standing};
use conn_core::Conn;

/// A connection's end, and how many SESSION_SETUPs of it had an event. For its link alone are what it has at the server behind its last
/// event, and what the frame brought that was taken last: none where the server heard nothing of that frame.
#[derive(Drop)]
pub(crate) struct ConnectionState {
    pub conn: Conn,
    pub setups: u32,
    pub standing: Standing,
    pub news: Option<News>,
}

impl ConnectionState {
    ghost use Rattle.std.specs.Prelude.{◌≡◌, ◌+◌, ◌-◌, ◌^◌, min, if◌then◌else◌};

    /// A connection that was just taken in.
    pub(crate) fn new(conn: Conn) -> ConnectionState
        ensures { (result.conn ≡ conn) × (result.setups ≡ 0) }
    {
        ConnectionState {
            conn,
            setups: 0,
            standing: Standing::nothing(),
            news: None,
        }
    }

    /// Counts an event, if it is a SESSION_SETUP's.
    pub(crate) fn count(&mut self, is_setup: bool)
        ensures kept { self.new.conn ≡ self.old.conn }
        ensures setups { self.new.setups ≡ (if is_setup then min (self.old.setups + 1) (2 ^ 32 - 1) else self.old.setups) }
    {
        if is_setup {
            self.setups = self.setups.saturating_add(1);
        }
    }
}
