use std::alloc::AllocError;
use thiserror::Error;

/// Why an event has no answer.
#[derive(Clone, Copy, Debug, PartialEq, Eq, Error)]
pub enum EventError {
    /// The state is as before, or is changed by the expiry of one open alone, whose records then stand.
    #[error("memory ran out")]
    Memory,
    /// The disk failed in this call, and its count of faults is now this.
    #[error("the disk failed, and its count of faults is now {0}")]
    DiskFault(u64),
    /// An earlier call failed at this count.
    #[error("the server stopped when its disk failed, at a count of {0} faults")]
    Stopped(u64),
}

impl From<AllocError> for EventError {
    ghost use Rattle.std.specs.Prelude.{◌≡◌};
    ghost use Rattle.server_checks.specs.declared.setups.error.EventError.TheVariants.{Memory};

    ghost from_gives = { λ e r. r ≡ Memory };

    fn from(_: AllocError) -> EventError {
        EventError::Memory
    }
}
