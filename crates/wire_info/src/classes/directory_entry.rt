/// What a listing can tell of a file (MS-FSCC 2.4); a class tells some of it. `name` is UTF-16. FileIndex,
/// the size of extended attributes and the short name are passed over, and written 0.
#[derive(Clone, Copy, Debug, PartialEq, Eq)]
pub struct DirectoryEntry<'a> {
    pub creation_time: u64,
    pub last_access_time: u64,
    pub last_write_time: u64,
    pub change_time: u64,
    pub end_of_file: u64,
    pub allocation_size: u64,
    pub file_attributes: u32,
    pub file_id: u64,
    pub name: &'a [u8],
}
