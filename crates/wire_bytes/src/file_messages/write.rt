/// The WRITE request (MS-SMB2 2.2.21): `payload` goes to `offset` of the open `file_id`.
#[derive(Clone, Copy, Debug, PartialEq, Eq)]
pub struct WriteRequest<'a> {
    pub offset: u64,
    pub file_id: [u8; 16],
    pub channel: u32,
    pub remaining_bytes: u32,
    pub flags: u32,
    pub payload: &'a [u8],
}
