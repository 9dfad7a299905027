use thiserror::Error;

/// What the two ends of a dialog agree on.
#[derive(Clone, Copy, Debug, PartialEq, Eq)]
pub enum Choice {
    Dialect,
    Hash,
    Cipher,
    Signing,
    SessionFlags,
}

/// Why a client refuses a session or a channel.
#[derive(Clone, Copy, Debug, PartialEq, Eq, Error)]
pub enum Refusal {
    /// The server chose what the client didn't offer.
    #[error("the server's {0:?} isn't one that was offered")]
    BadChoice(Choice),
    /// A response or a token that doesn't read, or isn't the one that was asked for.
    #[error("a response or its token doesn't read")]
    BadToken,
    #[error("the response's signature differs")]
    BadSignature,
    /// The status of a response that isn't a success.
    #[error("the server answered {0:#010x}")]
    Status(u32),
    #[error("the server has no SHA-512")]
    NoSha512,
}
