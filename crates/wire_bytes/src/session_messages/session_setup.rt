/// The SESSION_SETUP request (MS-SMB2 2.2.5), with its token.
#[derive(Clone, Copy, Debug, PartialEq, Eq)]
pub struct SessionSetupRequest<'a> {
    pub flags: u8,
    pub security_mode: u8,
    pub capabilities: u32,
    pub channel: u32,
    pub previous_session_id: u64,
    pub security: &'a [u8],
}

/// The SESSION_SETUP response (MS-SMB2 2.2.6), with its token.
#[derive(Clone, Copy, Debug, PartialEq, Eq)]
pub struct SessionSetupResponse<'a> {
    pub session_flags: u16,
    pub security: &'a [u8],
}
