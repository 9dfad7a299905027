use std::alloc::AllocError;
use thiserror::Error;

/// What keeps bytes from being a SPNEGO token: the first break, by its place.
#[derive(Clone, Copy, Debug, PartialEq, Eq, Error)]
pub enum DerError {
    #[error("memory ran out")]
    Memory,
    /// The place of a tag for which there is no byte, or of a length whose bytes or whose contents pass the end.
    #[error("the token ends too early for the element at {0}")]
    Truncated(usize),
    /// The place of a byte and the byte, where another one is due.
    #[error("the byte at {0} is {1}, and another one is due there")]
    BadTag(usize, u8),
    /// The place of a length of indefinite form, of more than four bytes, or that isn't the element's.
    #[error("the length at {0} isn't one that is due there")]
    BadLength(usize),
    /// The place of the first byte behind all that may stand there.
    #[error("bytes stand behind the token or one of its elements, at {0}")]
    Trailing(usize),
    /// The mechTypes lack NTLMSSP.
    #[error("the mechanisms do not name NTLMSSP")]
    NoNtlm,
}

impl From<AllocError> for DerError {
    ghost use Rattle.std.specs.Prelude.{◌≡◌};
    ghost use Rattle.spec_crypto.specs.declared.tokens.der.DerError.TheVariants as errors;

    ghost from_gives = { λ a e. e ≡ errors.Memory };

    fn from(_error: AllocError) -> DerError {
        DerError::Memory
    }
}
