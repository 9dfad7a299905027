/// The QUERY_INFO request (MS-SMB2 2.2.37). `info_type` is 1 for a file and 2 for a volume.
#[derive(Clone, Copy, Debug, PartialEq, Eq)]
pub struct QueryInfoRequest<'a> {
    pub info_type: u8,
    pub file_info_class: u8,
    pub output_buffer_length: u32,
    pub additional_information: u32,
    pub flags: u32,
    pub file_id: [u8; 16],
    pub input: &'a [u8],
}

/// The QUERY_INFO response (MS-SMB2 2.2.38). `output` is the information, by the class that was
/// asked.
#[derive(Clone, Copy, Debug, PartialEq, Eq)]
pub struct QueryInfoResponse<'a> {
    pub output: &'a [u8],
}
