use std::alloc::AllocError;
use thiserror::Error;

/// What keeps bytes from being a text in UTF-16: the first break, in the order written here.
#[derive(Clone, Copy, Debug, PartialEq, Eq, Error)]
pub enum TextError {
    #[error("memory ran out")]
    Memory,
    /// The number of bytes, which is odd.
    #[error("{0} bytes are no whole units of UTF-16")]
    OddLength(usize),
    /// The place of the first surrogate without a partner.
    #[error("the surrogate at {0} has no partner")]
    LoneSurrogate(usize),
}

/// What keeps the bytes at the front of a stream from being a frame.
#[derive(Clone, Copy, Debug, PartialEq, Eq, Error)]
pub enum FrameError {
    #[error("memory ran out")]
    Memory,
    /// The first byte, which isn't 0.
    #[error("a frame begins with {0}")]
    BadLead(u8),
    /// The length, which is above 1,114,112; above 2^32 - 1 it is told as that.
    #[error("a frame of {0} bytes is too long")]
    TooLong(u32),
}

/// What keeps bytes from being the contexts of a NEGOTIATE.
#[derive(Clone, Copy, Debug, PartialEq, Eq, Error)]
pub enum CtxError {
    /// The contexts, or the lists of one of them, don't fit.
    #[error("the contexts, or the lists of one of them, don't fit")]
    Short,
    /// A type, 1, 2 or 8, that stands twice.
    #[error("the context of type {0} stands twice")]
    Doubled(u16),
}

impl From<AllocError> for TextError {
    ghost use Rattle.std.specs.Prelude.{◌≡◌};
    ghost use Rattle.spec_wire.specs.declared.messages.refusal.TextError.TheVariants as errors;

    ghost from_gives = { λ a e. e ≡ errors.Memory };

    fn from(_short: AllocError) -> TextError {
        TextError::Memory
    }
}

impl From<AllocError> for FrameError {
    ghost use Rattle.std.specs.Prelude.{◌≡◌};
    ghost use Rattle.spec_wire.specs.declared.messages.refusal.FrameError.TheVariants as errors;

    ghost from_gives = { λ a e. e ≡ errors.Memory };

    fn from(_short: AllocError) -> FrameError {
        FrameError::Memory
    }
}
