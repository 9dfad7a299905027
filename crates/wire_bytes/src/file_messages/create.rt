/// The CREATE request (MS-SMB2 2.2.13). `name` is UTF-16, and `contexts` is the chain of its create
/// contexts, as they stand in the message.
#[derive(Clone, Copy, Debug, PartialEq, Eq)]
pub struct CreateRequest<'a> {
    pub requested_oplock_level: u8,
    pub impersonation_level: u32,
    pub desired_access: u32,
    pub file_attributes: u32,
    pub share_access: u32,
    pub create_disposition: u32,
    pub create_options: u32,
    pub name: &'a [u8],
    pub contexts: &'a [u8],
}

/// The CREATE response (MS-SMB2 2.2.14). `contexts` is the chain of its create contexts, as it
/// stands in the message.
#[derive(Clone, Copy, Debug, PartialEq, Eq)]
pub struct CreateResponse<'a> {
    pub oplock_level: u8,
    pub flags: u8,
    pub create_action: u32,
    pub creation_time: u64,
    pub last_access_time: u64,
    pub last_write_time: u64,
    pub change_time: u64,
    pub allocation_size: u64,
    pub end_of_file: u64,
    pub file_attributes: u32,
    pub file_id: [u8; 16],
    pub contexts: &'a [u8],
}
