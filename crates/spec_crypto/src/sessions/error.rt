use std::alloc::AllocError;
use thiserror::Error;

/// Why a frame isn't a sealed message of a session, in the order in which it is looked at (MS-SMB2 3.3.5.2.1.1).
#[derive(Clone, Copy, Debug, PartialEq, Eq, Error)]
pub enum SealError {
    #[error("memory ran out")]
    Memory,
    /// Fewer bytes than a transform header, or other ones in front.
    #[error("the frame isn't sealed")]
    NotSealed,
    /// The OriginalMessageSize, which isn't the number of bytes behind the transform header or is above 1,114,060.
    #[error("the original message size {0} isn't that of the frame")]
    BadSize(u32),
    /// The SessionId, which is another session's.
    #[error("the frame is sealed for the session {0}")]
    OtherSession(u64),
    #[error("the tag of the frame isn't the one of its bytes")]
    BadTag,
}

impl From<AllocError> for SealError {
    ghost use Rattle.std.specs.Prelude.{◌≡◌};
    ghost use Rattle.spec_crypto.specs.declared.sessions.error.SealError.TheVariants as errors;

    ghost from_gives = { λ a e. e ≡ errors.Memory };

    fn from(_error: AllocError) -> SealError {
        SealError::Memory
    }
}
