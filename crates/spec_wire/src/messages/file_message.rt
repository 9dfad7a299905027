/// The CLOSE request (MS-SMB2 2.2.15).
#[derive(Clone, Copy, Debug, PartialEq, Eq)]
pub struct CloseRequest {
    pub flags: u16,
    pub file_id: [u8; 16],
}

/// The CLOSE response (MS-SMB2 2.2.16).
#[derive(Clone, Copy, Debug, PartialEq, Eq)]
pub struct CloseResponse {
    pub flags: u16,
    pub creation_time: u64,
    pub last_access_time: u64,
    pub last_write_time: u64,
    pub change_time: u64,
    pub allocation_size: u64,
    pub end_of_file: u64,
    pub file_attributes: u32,
}

/// The FLUSH request (MS-SMB2 2.2.17).
#[derive(Clone, Copy, Debug, PartialEq, Eq)]
pub struct FlushRequest {
    pub file_id: [u8; 16],
}

/// The FLUSH response (MS-SMB2 2.2.18).
#[derive(Clone, Copy, Debug, PartialEq, Eq)]
pub struct FlushResponse;

/// The LOCK response (MS-SMB2 2.2.27).
#[derive(Clone, Copy, Debug, PartialEq, Eq)]
pub struct LockResponse;

/// The SET_INFO response (MS-SMB2 2.2.40).
#[derive(Clone, Copy, Debug, PartialEq, Eq)]
pub struct SetInfoResponse;
