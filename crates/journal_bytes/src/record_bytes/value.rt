use spec_exchange::values::{Basic, Origin};
use wire_bytes::{Bytes, Text};

/// A persistent open that a create made (MS-SMB2 3.3.1.10). `timeout` is in milliseconds.
#[derive(Drop, Debug)]
pub struct NewOpen {
    pub id: u64,
    /// The ClientGuid.
    pub client: [u8; 16],
    /// The CreateGuid.
    pub guid: [u8; 16],
    pub user: Text,
    pub access: u32,
    pub share: u32,
    pub options: u32,
    pub timeout: u32,
}

/// What the journal keeps of one change. `origin` is the message that caused it; times are in 100 nanoseconds
/// since 1601; files have numbers, the root's is 0.
#[derive(Drop, Debug)]
pub enum Record {
    /// The server began anew under this epoch.
    Epoch {
        number: u32,
    },
    /// A file or directory was created or taken anew by its number, `opened` under a persistent open.
    Create {
        origin: Origin,
        action: u32,
        file: u64,
        path: Text,
        attributes: u32,
        directory: bool,
        time: u64,
        opened: Option<NewOpen>,
    },
    Write {
        origin: Origin,
        file: u64,
        at: u64,
        time: u64,
        bytes: Bytes,
    },
    SetEnd {
        origin: Origin,
        file: u64,
        length: u64,
        time: u64,
    },
    SetBasic {
        origin: Origin,
        file: u64,
        basic: Basic,
    },
    /// The file was marked for deletion, or no longer is.
    SetDelete {
        origin: Origin,
        file: u64,
        marked: bool,
    },
    /// `replaced` is the file that went, 0 where none did.
    Rename {
        origin: Origin,
        file: u64,
        replaced: u64,
        path: Text,
    },
    Remove {
        origin: Origin,
        file: u64,
    },
    /// A lock slot of an open keeps this answer. `elements` are the request's, 24 bytes each (MS-SMB2 2.2.26.1).
    Lock {
        origin: Origin,
        id: u64,
        index: u8,
        number: u8,
        status: u32,
        elements: Bytes,
    },
    /// An open was closed.
    Shut {
        origin: Origin,
        id: u64,
    },
    /// The records behind this one are of version 2.
    Version {
        number: u32,
    },
    /// An open without a session went when its time was over.
    Expire {
        origin: Origin,
        id: u64,
    },
}
