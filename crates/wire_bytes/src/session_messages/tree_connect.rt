/// The TREE_CONNECT request (MS-SMB2 2.2.9). The path is UTF-16.
#[derive(Clone, Copy, Debug, PartialEq, Eq)]
pub struct TreeConnectRequest<'a> {
    pub flags: u16,
    pub path: &'a [u8],
}
