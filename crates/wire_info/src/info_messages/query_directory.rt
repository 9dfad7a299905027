/// The QUERY_DIRECTORY request (MS-SMB2 2.2.33). `name` is the pattern, in UTF-16.
#[derive(Clone, Copy, Debug, PartialEq, Eq)]
pub struct QueryDirectoryRequest<'a> {
    pub file_information_class: u8,
    pub flags: u8,
    pub file_index: u32,
    pub file_id: [u8; 16],
    pub output_buffer_length: u32,
    pub name: &'a [u8],
}

/// The QUERY_DIRECTORY response (MS-SMB2 2.2.34). `output` is a listing.
#[derive(Clone, Copy, Debug, PartialEq, Eq)]
pub struct QueryDirectoryResponse<'a> {
    pub output: &'a [u8],
}
