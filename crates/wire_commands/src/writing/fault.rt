use std::alloc::AllocError;
use thiserror::Error;

// An answer in place of a `requires`, so that no caller owes one and no length is cut.
/// Why a body wasn't written.
#[derive(Clone, Copy, Debug, PartialEq, Eq, Error)]
pub enum WriteError {
    #[error("out of memory")]
    Memory,
    /// A part is longer than the field that tells its length can say, a LOCK has no element, or its slot's index or
    /// number is above what a LockSequence holds.
    #[error("a part doesn't fit its field")]
    Unwritable,
}

impl From<AllocError> for WriteError {
    ghost use Rattle.std.specs.Prelude.{◌≡◌};
    ghost use Rattle.wire_commands.specs.declared.writing.fault.WriteError.TheVariants as errors;

    ghost from_gives = { λ a e. e ≡ errors.Memory };

    fn from(_error: AllocError) -> WriteError {
        WriteError::Memory
    }
}
