use base_lists::ListOf;

/// An open of a file: its id, its mapped access and its share access (MS-SMB2 2.2.13).
#[derive(Clone, Copy, Debug, PartialEq, Eq)]
pub struct Open {
    pub id: u64,
    pub access: u32,
    pub share: u32,
}

/// A range of bytes that an open locks, or is to lock.
#[derive(Clone, Copy, Debug, PartialEq, Eq)]
pub struct Range {
    pub owner: u64,
    pub at: u64,
    pub length: u64,
    pub exclusive: bool,
}

/// Opens of one file, one after the other.
pub type OpenList = ListOf<Open>;

/// Ranges, one after the other.
pub type RangeList = ListOf<Range>;
