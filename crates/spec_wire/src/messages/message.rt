/// The error response (MS-SMB2 2.2.2). Its error data is passed over.
#[derive(Clone, Copy, Debug, PartialEq, Eq)]
pub struct ErrorResponse {
    pub error_context_count: u8,
    pub byte_count: u32,
}

/// The READ request (MS-SMB2 2.2.19), `length` bytes from `offset` of the open `file_id`.
#[derive(Clone, Copy, Debug, PartialEq, Eq)]
pub struct ReadRequest {
    pub flags: u8,
    pub length: u32,
    pub offset: u64,
    pub file_id: [u8; 16],
    pub minimum_count: u32,
    pub channel: u32,
    pub remaining_bytes: u32,
}

/// The WRITE response (MS-SMB2 2.2.22).
#[derive(Clone, Copy, Debug, PartialEq, Eq)]
pub struct WriteResponse {
    pub count: u32,
    pub remaining: u32,
}

/// A range of the LOCK request (MS-SMB2 2.2.26.1), 24 bytes.
#[derive(Clone, Copy, Debug, PartialEq, Eq)]
pub struct LockElement {
    pub offset: u64,
    pub length: u64,
    pub flags: u32,
}
