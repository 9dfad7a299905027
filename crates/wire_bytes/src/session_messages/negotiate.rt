/// The NEGOTIATE request (MS-SMB2 2.2.3). A dialect is 2 bytes; `contexts` are the contexts, the first of
/// which begins at a multiple of 8, up to the last one's end.
#[derive(Clone, Copy, Debug, PartialEq, Eq)]
pub struct NegotiateRequest<'a> {
    pub security_mode: u16,
    pub capabilities: u32,
    pub client_guid: [u8; 16],
    pub negotiate_context_count: u16,
    pub dialects: &'a [u8],
    pub contexts: &'a [u8],
}

/// The NEGOTIATE response (MS-SMB2 2.2.4), with its token and its contexts. Times are in units of 100
/// nanoseconds since 1601.
#[derive(Clone, Copy, Debug, PartialEq, Eq)]
pub struct NegotiateResponse<'a> {
    pub security_mode: u16,
    pub dialect_revision: u16,
    pub negotiate_context_count: u16,
    pub server_guid: [u8; 16],
    pub capabilities: u32,
    pub max_transact_size: u32,
    pub max_read_size: u32,
    pub max_write_size: u32,
    pub system_time: u64,
    pub server_start_time: u64,
    pub security: &'a [u8],
    pub contexts: &'a [u8],
}
