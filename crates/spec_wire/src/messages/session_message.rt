/// The LOGOFF request (MS-SMB2 2.2.7).
#[derive(Clone, Copy, Debug, PartialEq, Eq)]
pub struct LogoffRequest;

/// The LOGOFF response (MS-SMB2 2.2.8).
#[derive(Clone, Copy, Debug, PartialEq, Eq)]
pub struct LogoffResponse;

/// The TREE_CONNECT response (MS-SMB2 2.2.10).
#[derive(Clone, Copy, Debug, PartialEq, Eq)]
pub struct TreeConnectResponse {
    pub share_type: u8,
    pub share_flags: u32,
    pub capabilities: u32,
    pub maximal_access: u32,
}

/// The TREE_DISCONNECT request (MS-SMB2 2.2.11).
#[derive(Clone, Copy, Debug, PartialEq, Eq)]
pub struct TreeDisconnectRequest;

/// The TREE_DISCONNECT response (MS-SMB2 2.2.12).
#[derive(Clone, Copy, Debug, PartialEq, Eq)]
pub struct TreeDisconnectResponse;

/// The ECHO request (MS-SMB2 2.2.28).
#[derive(Clone, Copy, Debug, PartialEq, Eq)]
pub struct EchoRequest;

/// The ECHO response (MS-SMB2 2.2.29).
#[derive(Clone, Copy, Debug, PartialEq, Eq)]
pub struct EchoResponse;
