use thiserror::Error;

/// Why an event has no reply.
#[derive(Clone, Copy, Debug, PartialEq, Eq, Error)]
pub enum ServeError {
    /// The state is as before, or is changed by the expiry of one open alone, whose records then stand.
    #[error("memory ran out")]
    Memory,
    /// The event was carried out and stands, but memory ran out for its reply. `acted`: files, the set of opens or
    /// ranges changed.
    #[error("memory ran out for the reply to an event that was carried out")]
    Unanswered { acted: bool },
    /// The server has stopped: its disk failed, in this call or in an earlier one, at this count of its faults.
    #[error("the server stopped when its disk failed, at a count of {0} faults")]
    Stopped(u64),
}
