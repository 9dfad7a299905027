use crate::values::setup::SetupRequest;
use spec_exchange::values::{Basic, Element};
use wire_bytes::Text;

/// What a request asks (MS-SMB2 2.2): the model's `Command`. A file is named by its open's id; a FileId of two
/// different halves is 0, which no open has. Only what a WRITE carries is borrowed, of the frame that it came in
/// or of whoever sends it.
#[derive(Drop, Debug)]
pub enum Command<'a> {
    /// The body doesn't read, is of no known class or asks for what isn't supported.
    Unreadable {
        status: u32,
    },
    /// NEGOTIATE and ECHO, which the connection alone answers with this status.
    Aside {
        status: u32,
    },
    Setup(SetupRequest),
    Logoff,
    /// `share` is the part of the path behind its last `\`.
    TreeConnect {
        share: Text,
    },
    TreeDisconnect,
    Create(CreateRequest),
    /// `query` asks for the file's times and lengths.
    Close {
        file: u64,
        query: bool,
    },
    Flush {
        file: u64,
    },
    Read {
        file: u64,
        at: u64,
        size: u32,
        minimum: u32,
        channel: u32,
    },
    Write {
        file: u64,
        at: u64,
        bytes: &'a [u8],
        channel: u32,
    },
    /// `index` and `number` are the parts of a LockSequence.
    Lock {
        file: u64,
        index: u32,
        number: u8,
        elements: Vec<Element>,
    },
    Ioctl {
        file: u64,
        code: u32,
        room: u32,
    },
    ListDirectory {
        file: u64,
        class: u8,
        restart: bool,
        single: bool,
        pattern: Text,
        room: u32,
    },
    QueryFile {
        file: u64,
        class: u8,
        room: u32,
    },
    QueryVolume {
        file: u64,
        class: u8,
        room: u32,
    },
    SetInfo {
        file: u64,
        setting: Setting,
    },
}

/// CREATE (MS-SMB2 2.2.13), with its create contexts.
#[derive(Drop, Debug)]
pub struct CreateRequest {
    pub path: Text,
    pub access: u32,
    pub share: u32,
    pub attributes: u32,
    pub disposition: u32,
    pub options: u32,
    pub durable: Option<Durable>,
    pub reconnect: Option<Reconnect>,
    /// It asks for the maximal access (MS-SMB2 2.2.13.2.5).
    pub maximal: bool,
    /// It asks for the file's number on the disk (MS-SMB2 2.2.13.2.9).
    pub disk_id: bool,
}

/// Asks for an open that outlives its session where persistent (MS-SMB2 2.2.13.2.11). `timeout` counts
/// milliseconds, `guid` is the CreateGuid, its first byte the lowest.
#[derive(Clone, Copy, Debug, PartialEq, Eq, Drop)]
pub struct Durable {
    pub timeout: u32,
    pub persistent: bool,
    pub guid: u128,
}

/// Asks to attach a standing open (MS-SMB2 2.2.13.2.12).
#[derive(Clone, Copy, Debug, PartialEq, Eq, Drop)]
pub struct Reconnect {
    pub file: u64,
    pub guid: u128,
}

/// What a SET_INFO sets (MS-FSCC 2.4): the classes 4, 10, 13, 19 and 20.
#[derive(Drop, Debug)]
pub enum Setting {
    SetBasic { basic: Basic },
    Rename { replace: bool, path: Text },
    SetDelete { marked: bool },
    SetAllocation { size: u64 },
    SetEnd { size: u64 },
    SetPosition { position: u64 },
    /// Whichever bits it names.
    SetMode,
}
