/// The IOCTL request (MS-SMB2 2.2.31).
#[derive(Clone, Copy, Debug, PartialEq, Eq)]
pub struct IoctlRequest<'a> {
    pub ctl_code: u32,
    pub file_id: [u8; 16],
    pub max_input_response: u32,
    pub max_output_response: u32,
    pub flags: u32,
    pub input: &'a [u8],
    pub output: &'a [u8],
}

/// The IOCTL response (MS-SMB2 2.2.32).
#[derive(Clone, Copy, Debug, PartialEq, Eq)]
pub struct IoctlResponse<'a> {
    pub ctl_code: u32,
    pub file_id: [u8; 16],
    pub flags: u32,
    pub input: &'a [u8],
    pub output: &'a [u8],
}
