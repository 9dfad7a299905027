use std::alloc::AllocError;
use thiserror::Error;

/// A variable part of an NTLM message.
#[derive(Clone, Copy, Debug, PartialEq, Eq)]
pub enum NtlmField {
    Lm,
    Nt,
    Domain,
    User,
    Workstation,
    SessionKey,
    TargetName,
    TargetInfo,
}

/// What keeps bytes from being an NTLM message: the first break, in the order written here.
#[derive(Clone, Copy, Debug, PartialEq, Eq, Error)]
pub enum NtlmError {
    #[error("memory ran out")]
    Memory,
    /// Too few bytes, or others in front than `NTLMSSP` and a zero.
    #[error("the message is too short or does not begin as one of NTLM")]
    BadSignature,
    /// The MessageType, which is another one's.
    #[error("the message type {0} isn't the one that is due")]
    BadType(u32),
    /// The first part that isn't empty and leaves the message.
    #[error("the part {0:?} leaves the message")]
    OutOfRange(NtlmField),
    /// The place in the message of the first pair of target information that doesn't fit before an end pair.
    #[error("the pair of target information at {0} does not fit")]
    BadPairs(usize),
}

/// Why a logon is refused, in the order in which it is looked at.
#[derive(Clone, Copy, Debug, PartialEq, Eq, Error)]
pub enum LogonError {
    #[error("memory ran out")]
    Memory,
    #[error("no user has that name")]
    UnknownUser,
    /// The message doesn't read, lacks what it needs, or its proof isn't the user's.
    #[error("the proof isn't the user's")]
    WrongProof,
    /// The message owes a MIC, and its MIC is another one.
    #[error("the message integrity code isn't the one of the three messages")]
    WrongMic,
    #[error("the user's name isn't ASCII")]
    NotAscii,
}

/// The NEGOTIATE message of NTLM (MS-NLMP 2.2.1.1).
#[derive(Clone, Copy, Debug, PartialEq, Eq)]
pub struct Type1 {
    pub flags: u32,
}

impl From<AllocError> for NtlmError {
    ghost use Rattle.std.specs.Prelude.{◌≡◌};
    ghost use Rattle.spec_crypto.specs.declared.tokens.ntlm.NtlmError.TheVariants as errors;

    ghost from_gives = { λ a e. e ≡ errors.Memory };

    fn from(_error: AllocError) -> NtlmError {
        NtlmError::Memory
    }
}

impl From<AllocError> for LogonError {
    ghost use Rattle.std.specs.Prelude.{◌≡◌};
    ghost use Rattle.spec_crypto.specs.declared.tokens.ntlm.LogonError.TheVariants as errors;

    ghost from_gives = { λ a e. e ≡ errors.Memory };

    fn from(_error: AllocError) -> LogonError {
        LogonError::Memory
    }
}
