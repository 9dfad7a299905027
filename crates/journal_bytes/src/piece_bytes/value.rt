use spec_exchange::values::{Basic, Range};
use wire_bytes::{Bytes, Text};

/// A file or directory of a snapshot, but for its number and path: `size` bytes, of which the first `stored` are those that
/// are stored beside the journal, and the others zeros.
#[derive(Clone, Copy)]
pub struct FileFront {
    pub directory: bool,
    /// Whether it is marked for deletion.
    pub pending: bool,
    pub basic: Basic,
    pub size: u64,
    pub stored: u64,
}

/// A persistent open of a snapshot, but for its id and the name of its user (MS-SMB2 3.3.1.10). GUIDs are numbers, their
/// first byte the lowest; `timeout` is in milliseconds.
#[derive(Clone, Copy)]
pub struct OpenFront {
    pub file: u64,
    /// The ClientGuid.
    pub client: u128,
    /// The CreateGuid.
    pub guid: u128,
    pub access: u32,
    pub share: u32,
    pub options: u32,
    pub action: u32,
    pub timeout: u32,
}

/// What a snapshot keeps of one thing. Times are in 100 nanoseconds since 1601; files have numbers, the root's is 0.
#[derive(Drop)]
pub enum Piece {
    /// The version of the records behind it, the epoch, how many ids of opens it gave, the next file's number, and the root's
    /// times. It is the first piece.
    Base {
        version: u32,
        epoch: u32,
        given: u32,
        next_file: u64,
        times: Basic,
    },
    File {
        file: u64,
        path: Text,
        front: FileFront,
    },
    /// Bytes of a file that was told before, over what stood there.
    Bytes {
        file: u64,
        at: u64,
        bytes: Bytes,
    },
    Open {
        id: u64,
        user: Text,
        front: OpenFront,
    },
    /// What a lock slot of an open keeps.
    Slot {
        id: u64,
        index: u8,
        number: u8,
        status: u32,
    },
    /// A range that an open locks; its file is that open's.
    Range {
        range: Range,
    },
    /// The GUIDs of an open that expired.
    Guid {
        client: u128,
        guid: u128,
    },
}
