/// The READ response (MS-SMB2 2.2.20), with the bytes that were read.
#[derive(Clone, Copy, Debug, PartialEq, Eq)]
pub struct ReadResponse<'a> {
    pub data_remaining: u32,
    pub payload: &'a [u8],
}
