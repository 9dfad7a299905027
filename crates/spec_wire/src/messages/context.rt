/// What the create contexts of a CREATE request ask (MS-SMB2 2.2.13.2). Of two contexts of one name the
/// first counts; others than these four are passed over.
#[derive(Clone, Copy, Debug, PartialEq, Eq)]
pub struct CreateContexts {
    pub dh2q: Option<Dh2q>,
    pub dh2c: Option<Dh2c>,
    /// Whether it asks for the maximal access.
    pub mxac: bool,
    /// Whether it asks for the file's number on the disk.
    pub qfid: bool,
}

/// Asks for an open that can be attached again (MS-SMB2 2.2.13.2.11). `timeout` counts milliseconds.
#[derive(Clone, Copy, Debug, PartialEq, Eq)]
pub struct Dh2q {
    pub timeout: u32,
    pub persistent: bool,
    pub guid: [u8; 16],
}

/// Asks to attach the open that `file` and the CreateGuid name (MS-SMB2 2.2.13.2.12).
#[derive(Clone, Copy, Debug, PartialEq, Eq)]
pub struct Dh2c {
    pub file: [u8; 16],
    pub guid: [u8; 16],
    pub persistent: bool,
}

/// What the create contexts of a CREATE response tell (MS-SMB2 2.2.14.2). Of two contexts of one name
/// the first counts; others than these three are passed over.
#[derive(Clone, Copy, Debug, PartialEq, Eq)]
pub struct ReplyContexts {
    pub dh2q: Option<Dh2qReply>,
    pub mxac: Option<MaximalAccess>,
    pub qfid: Option<DiskId>,
}

/// How long the open is kept without a session (MS-SMB2 2.2.14.2.12). `timeout` counts milliseconds.
#[derive(Clone, Copy, Debug, PartialEq, Eq)]
pub struct Dh2qReply {
    pub timeout: u32,
    pub persistent: bool,
}

/// The access that the user could have (MS-SMB2 2.2.14.2.5).
#[derive(Clone, Copy, Debug, PartialEq, Eq)]
pub struct MaximalAccess {
    pub query_status: u32,
    pub maximal_access: u32,
}

/// The numbers of the file and of its volume (MS-SMB2 2.2.14.2.9).
#[derive(Clone, Copy, Debug, PartialEq, Eq)]
pub struct DiskId {
    pub file: u64,
    pub volume: u64,
}
