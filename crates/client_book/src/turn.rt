//! What a channel gives the client in its turn, and what it is told.
use client_ends::{Answer, Bound};
use client_values::OpKind;
use spec_crypto::Keys;
use wire_bytes::{Refusal, Request};

/// What a turn is for. Channels are counted from 0 on.
#[derive(Drop)]
pub enum Turn {
    /// An operation comes, under its number.
    Submit {
        number: u32,
        kind: OpKind,
    },
    /// A channel without a connection asks what it is to do. `first` where none of its dialogs has ended yet; `shuns` is the session to
    /// which it is not to be bound, 0 where there is none.
    Begin {
        channel: u8,
        first: bool,
        shuns: u64,
    },
    /// A connect failed.
    Failed {
        channel: u8,
    },
    /// The dialog of a new session has accepted it: its id and its keys.
    Accept {
        session: u64,
        keys: Keys,
    },
    /// A dialog ended well, in this session and this tree.
    Ready {
        channel: u8,
        session: u64,
        tree: u32,
    },
    /// A dialog was refused.
    Refused {
        channel: u8,
        why: Refusal,
    },
    /// A dialog was left, since its link ended.
    Leave {
        channel: u8,
    },
    /// No session can be had, since its dialog was refused so.
    Finish {
        why: Refusal,
    },
    /// A channel that is ready may send, and holds so many credits.
    Push {
        channel: u8,
        credits: u32,
    },
    /// A reply came on a channel.
    Hear {
        channel: u8,
        answer: Answer,
    },
    /// A channel that was ready is cut.
    Cut {
        channel: u8,
    },
    /// A channel found no memory.
    Lack,
}

/// What a channel is to do.
#[derive(Drop)]
pub enum Told {
    /// Nothing, for now.
    Nothing,
    /// To connect, and to make a session, which names the last one as its previous one.
    Make { previous: u64 },
    /// To connect, and to be bound to a session, in which no other channel gets this number.
    Bind { bound: Bound, number: u16 },
    /// To send this.
    Send(Request),
    /// To close its link.
    Close,
    /// Every operation is settled.
    Done,
    /// Memory ran out, on this channel or on another.
    Stop,
}
