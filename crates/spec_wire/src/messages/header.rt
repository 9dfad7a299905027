/// The header of a message (MS-SMB2 2.2.1), 64 bytes. In a request the low half of `status` is the
/// channel sequence. In an asynchronous message `tree` is the upper half of the AsyncId.
#[derive(Clone, Copy, Debug, PartialEq, Eq)]
pub struct Header {
    pub charge: u16,
    pub status: u32,
    pub command: u16,
    pub credits: u16,
    pub flags: u32,
    pub next: u32,
    pub message: u64,
    pub tree: u32,
    pub session: u64,
    pub signature: [u8; 16],
}

/// A message of a frame, from the byte `start` up to the byte `end`, which isn't its own. What pads it
/// to the next message is.
#[derive(Clone, Copy, Debug, PartialEq, Eq)]
pub struct Span {
    pub start: usize,
    pub end: usize,
}
