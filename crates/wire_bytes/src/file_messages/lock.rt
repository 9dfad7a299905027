/// The LOCK request (MS-SMB2 2.2.26). `locks` are its elements as bytes, 24 each. The low 4 bits of
/// `lock_sequence` are the number, the rest the index.
#[derive(Clone, Copy, Debug, PartialEq, Eq)]
pub struct LockRequest<'a> {
    pub lock_sequence: u32,
    pub file_id: [u8; 16],
    pub locks: &'a [u8],
}
