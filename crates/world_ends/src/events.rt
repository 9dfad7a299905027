use client_values::OpKind;
use std::alloc::AllocError;
use thiserror::Error;
use wire_bytes::Bytes;

/// What can happen to a world.
#[derive(Drop)]
pub enum WorldEvent {
    /// An operation, under its number. One that may not be taken changes nothing.
    Submit {
        number: u32,
        kind: OpKind,
    },
    Open(u32),
    Push(u32),
    Serve(u32),
    Take(u32),
    Cut(u32),
    Drop(u32),
    Restart,
    /// The server crashes in the event of a connection's front message, whose records stay where `kept` says so.
    Crash {
        connection: u32,
        kept: bool,
    },
    /// Milliseconds pass.
    Wait(u64),
    /// The front message on its way up to the server, or down to the client, is replaced.
    Forge {
        connection: u32,
        up: bool,
        bytes: Bytes,
    },
    /// The front message's bytes from a place on are changed, by exclusive or.
    Flip {
        connection: u32,
        up: bool,
        at: u32,
        mask: Bytes,
    },
}

/// Why a world doesn't meet an event. Behind any but `Memory` it is as before.
#[derive(Clone, Copy, Debug, PartialEq, Eq, Error)]
pub enum WorldError {
    #[error("memory ran out")]
    Memory,
    /// The end that the event needs isn't open, or isn't ready.
    #[error("no channel {0}")]
    NoChannel(u32),
    /// Nothing is on its way there.
    #[error("nothing there on {0}")]
    NothingThere(u32),
    /// An end of this connection is open, or its session is in the making.
    #[error("{0} is in use")]
    InUse(u32),
}

impl From<AllocError> for WorldError {
    ghost use Rattle.std.specs.Prelude.{◌≡◌};
    ghost use Rattle.world_ends.specs.declared.events.WorldError.TheVariants as errors;

    ghost from_gives = { λ a e. e ≡ errors.Memory };

    fn from(_error: AllocError) -> WorldError {
        WorldError::Memory
    }
}
