//! Small values that own their parts, as the model and the code share them.

/// A range of bytes that an open locks (MS-SMB2 3.3.1.10).
#[derive(Clone, Copy, Debug, PartialEq, Eq, Drop)]
pub struct Range {
    /// The id of the open.
    pub owner: u64,
    /// The offset of its first byte, and how many bytes it has.
    pub at: u64,
    pub length: u64,
    pub exclusive: bool,
}

/// What one place of Open.LockSequenceArray keeps: the LockSequenceNumber of the last request and the status of its answer
/// (MS-SMB2 3.3.1.10, 3.3.5.14).
#[derive(Clone, Copy, Debug, PartialEq, Eq, Drop)]
pub struct Kept {
    pub number: u8,
    pub status: u32,
}

/// One element of a LOCK request (MS-SMB2 2.2.26.1).
#[derive(Clone, Copy, Debug, PartialEq, Eq, Drop)]
pub struct Element {
    /// The offset of its first byte, and how many bytes it has.
    pub at: u64,
    pub length: u64,
    /// Shared 1, exclusive 2, unlock 4, at once 0x10.
    pub flags: u32,
}

/// A tree that a session connected to, of the pipes or of the disk (MS-SMB2 3.3.1.9).
#[derive(Clone, Copy, Debug, PartialEq, Eq, Drop)]
pub struct Tree {
    pub id: u32,
    pub pipes: bool,
}

/// A file's times in 100 nanoseconds since 1601, and its attributes (MS-FSCC 2.4.7).
#[derive(Clone, Copy, Debug, PartialEq, Eq, Drop)]
pub struct Basic {
    pub created: u64,
    pub accessed: u64,
    pub written: u64,
    pub changed: u64,
    pub attributes: u32,
}

/// The message that caused a record of the journal; all 0 but the connection where none did.
#[derive(Clone, Copy, Debug, PartialEq, Eq, Drop)]
pub struct Origin {
    pub session: u64,
    pub connection: u32,
    pub message: u64,
}
