ghost use Rattle.std.specs.Prelude.{◌≡◌, false};

use spec_wire::FrameError;
use std::alloc::AllocError;
use thiserror::Error;

/// Why the server ends a connection by itself.
#[derive(Clone, Copy, Debug, PartialEq, Eq, Error)]
pub enum ConnEnd {
    /// The frame is too long or no chain of messages, or a message comes before a NEGOTIATE was answered with success.
    #[error("bad frame")]
    BadFrame,
    /// The least message id of a charge that the window doesn't hold.
    #[error("the message id {0} is outside the window")]
    OutsideWindow(u64),
    #[error("second negotiate")]
    SecondNegotiate,
    /// A sealed frame that doesn't open under the keys of this connection.
    #[error("unsealable")]
    Unsealable,
    /// No nonce is left.
    #[error("all nonces are given")]
    Spent,
    /// The server has as many connections as it takes.
    #[error("full")]
    Full,
    /// The link failed, and its count of faults is now this.
    #[error("the link failed, and its count of faults is now {0}")]
    LinkFault(u64),
    /// The server has stopped, at this count of its disk's faults.
    #[error("the server stopped at a count of {0} faults")]
    Stopped(u64),
    /// The frame or its answer found no memory.
    #[error("memory ran out")]
    Memory,
}

impl From<AllocError> for ConnEnd {
    ghost use Rattle.std.specs.Prelude.{◌≡◌};
    ghost use Rattle.conn_core.specs.declared.end.ConnEnd.TheVariants as ends;

    ghost from_gives = { λ a e. e ≡ ends.Memory };

    fn from(_error: AllocError) -> ConnEnd {
        ConnEnd::Memory
    }
}

impl From<FrameError> for ConnEnd {
    ghost use Rattle.conn_core.specs.Shown.{IsFrontEnd};

    ghost from_gives = { λ refusal e. IsFrontEnd refusal e };

    /// A stream that breaks is a bad frame (MS-SMB2 2.1).
    fn from(refusal: FrameError) -> ConnEnd {
        match refusal {
            FrameError::Memory => ConnEnd::Memory,
            FrameError::BadLead(_) => ConnEnd::BadFrame,
            FrameError::TooLong(_) => ConnEnd::BadFrame,
        }
    }
}

/// A frame ended its connection. Messages of it may have been carried out before that.
#[derive(Clone, Copy, Debug, PartialEq, Eq)]
pub struct Ended {
    pub why: ConnEnd,
    /// A message of the frame acted.
    pub acted: bool,
    /// A message of the frame was taken.
    pub took: bool,
    /// An event of the frame found no memory.
    pub lacked: bool,
}

/// It ended before any message was carried out.
pub(crate) fn at_once(why: ConnEnd) -> Ended
    ensures { result ≡ record { why = why; acted = false; took = false; lacked = false } }
{
    Ended {
        why,
        acted: false,
        took: false,
        lacked: false,
    }
}
