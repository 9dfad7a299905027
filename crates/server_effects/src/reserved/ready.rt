//! What a verdict comes to, with all the memory that its effect wants. What the request itself says stays with it.
use crate::{ChangeReady, FileReady};
use crypto_sessions::Acceptor;
use server_checks::SessionRow;
use spec_crypto::Keys;
use store_opens::{Range, Row};
use wire_bytes::{Bytes, Text};
use wire_commands::Body;

/// A step of a logon (MS-SMB2 3.3.5.5). `list` holds the bytes of the first token's list of mechanisms, `acceptor` the challenge,
/// `token` the bytes of the response's token.
#[derive(Drop)]
pub enum SetupReady {
    /// A new session is in the making, under the next id.
    Challenge {
        list: Bytes,
        acceptor: Acceptor,
        token: Bytes,
    },
    /// A further channel of this session is in the making.
    ChallengeBinding {
        session: u64,
        list: Bytes,
        acceptor: Acceptor,
        token: Bytes,
    },
    /// A session begins under this id. The previous one, where there is one, ends first; quiet where its records don't fit
    /// the journal.
    Begin {
        session: u64,
        row: SessionRow,
        token: Bytes,
        previous: Option<u64>,
        quiet: bool,
    },
    /// A session has a further channel, with these keys.
    Join {
        session: u64,
        keys: Keys,
        token: Bytes,
    },
}

/// A verdict with all the memory that its effect wants, one variant a verdict (`server_checks::Verdict`). What the request says
/// (paths, bytes, elements) stays with it. `id` is an open's, `status` an NTSTATUS (MS-ERREF 2.3), `body` what the response
/// carries; `index` and `number` name a lock slot (MS-SMB2 3.3.5.14).
#[derive(Drop)]
pub enum Ready {
    Refuse {
        status: u32,
    },
    Give {
        body: Body,
    },
    /// Refused, and kept for a replay under this CreateGuid.
    KeepRefusal {
        guid: u128,
        status: u32,
    },
    Repeat {
        id: u64,
    },
    Attach {
        id: u64,
    },
    /// An open is made of what is there, or with a file that is new or emptied.
    Make {
        file: FileReady,
        row: Row,
    },
    TurnDown {
        id: u64,
        status: u32,
    },
    Tell {
        id: u64,
        body: Body,
    },
    Show {
        id: u64,
        last: Option<Text>,
        body: Body,
    },
    Seek {
        id: u64,
        position: u64,
    },
    KeepSlot {
        id: u64,
        index: u32,
        number: u8,
        status: u32,
    },
    PutRanges {
        id: u64,
        index: u32,
        number: u8,
        ranges: Vec<Range>,
    },
    /// A change of the open's file. `acts`: whether anything differs behind it.
    Alter {
        id: u64,
        change: ChangeReady,
        body: Body,
        acts: bool,
    },
    CloseOpen {
        id: u64,
        body: Body,
    },
    Setup {
        step: SetupReady,
    },
    /// A session ends; quiet, files stay as they are, since its records don't fit the journal.
    EndSession {
        session: u64,
        quiet: bool,
    },
    /// A tree connect, to the share or to the pipes.
    AddTree {
        pipes: bool,
    },
    /// The opens of the tree, in the order of their ids.
    DropTree {
        opens: Vec<u64>,
    },
}
