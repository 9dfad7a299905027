//! How served connections ended.

/// Why a connection was ended.
#[derive(Clone, Copy, PartialEq, Eq, Debug)]
pub enum ConnEnd {
    /// The bytes were refused as a frame.
    BadFrame,
    /// A message id is outside the window.
    OutsideWindow(u64),
    /// A second NEGOTIATE came.
    SecondNegotiate,
    /// What came can't be unsealed.
    Unsealable,
    /// A number that may be used once is used up.
    Spent,
    /// As much as may be kept for a connection is kept.
    Full,
    /// The link failed.
    LinkFault(u64),
    /// The journal took no more.
    Stopped(u64),
    /// Memory ran out.
    Memory,
}

/// How a served connection ended: by the end of what the peer sent, or otherwise.
#[derive(Clone, Copy, PartialEq, Eq, Debug)]
pub enum Ended {
    Closed,
    By(ConnEnd),
}
