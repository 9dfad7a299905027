use std::alloc::AllocError;
use thiserror::Error;

/// A variable part of a message.
#[derive(Clone, Copy, Debug, PartialEq, Eq)]
pub enum Part {
    Security,
    Dialects,
    Contexts,
    Path,
    Name,
    Payload,
    Locks,
    Input,
    Output,
}

/// What keeps bytes from being a message: the first break, in the order written here.
#[derive(Clone, Copy, Debug, PartialEq, Eq, Error)]
pub enum MessageError {
    /// The place of the first field of the fixed part, a reserved one too, that doesn't fit. The
    /// header is the first field.
    #[error("the field at byte {0} doesn't fit into the message")]
    Short(usize),
    /// The StructureSize, which isn't the message's.
    #[error("the StructureSize is {0}, which isn't this message's")]
    BadSize(u16),
    /// A part that isn't empty and doesn't stand behind the fixed part and inside the message.
    #[error("the part {0:?} isn't behind the fixed part and inside the message")]
    BadOffset(Part),
    /// A list whose count is 0 where it must not be, or that doesn't fit.
    #[error("the count of the part {0:?} is 0 or doesn't fit into the message")]
    BadCount(Part),
    /// An information class that isn't known.
    #[error("the information class {0} isn't known")]
    BadClass(u8),
}

/// What keeps bytes from being a header, or a frame from being a chain of messages.
#[derive(Clone, Copy, Debug, PartialEq, Eq, Error)]
pub enum HeaderError {
    #[error("memory ran out")]
    Memory,
    /// Fewer than 64 bytes.
    #[error("the message has fewer bytes than a header, which has 64")]
    Short,
    /// The first four bytes, which aren't FE 'S' 'M' 'B'.
    #[error("the message begins with the bytes {0:?}, and not with FE 'S' 'M' 'B'")]
    BadProtocol([u8; 4]),
    /// The StructureSize, which isn't 64.
    #[error("the header's StructureSize is {0}, and not 64")]
    BadSize(u16),
    /// The place of a message whose NextCommand leads nowhere.
    #[error("the NextCommand of the message at byte {0} leads to no message")]
    BadNext(usize),
}

impl From<AllocError> for HeaderError {
    ghost use Rattle.std.specs.Prelude.{◌≡◌};
    ghost use Rattle.spec_wire.specs.declared.messages.error.HeaderError.TheVariants as errors;

    ghost from_gives = { λ a e. e ≡ errors.Memory };

    fn from(_short: AllocError) -> HeaderError {
        HeaderError::Memory
    }
}
