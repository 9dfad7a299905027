/// FileNameInformation, class 9 (MS-FSCC 2.1.7). `name` is UTF-16.
#[derive(Clone, Copy, Debug, PartialEq, Eq)]
pub struct FileNameInformation<'a> {
    pub name: &'a [u8],
}

/// FileRenameInformation, class 10, set (MS-FSCC 2.4.37.2). `name` is UTF-16.
#[derive(Clone, Copy, Debug, PartialEq, Eq)]
pub struct FileRenameInformation<'a> {
    pub replace_if_exists: u8,
    pub root_directory: u64,
    pub name: &'a [u8],
}

/// FileAllInformation, class 18 (MS-FSCC 2.4.2). `name` is UTF-16.
#[derive(Clone, Copy, Debug, PartialEq, Eq)]
pub struct FileAllInformation<'a> {
    pub creation_time: u64,
    pub last_access_time: u64,
    pub last_write_time: u64,
    pub change_time: u64,
    pub file_attributes: u32,
    pub allocation_size: u64,
    pub end_of_file: u64,
    pub number_of_links: u32,
    pub delete_pending: u8,
    pub directory: u8,
    pub index_number: u64,
    pub access_flags: u32,
    pub current_byte_offset: u64,
    pub mode: u32,
    pub name: &'a [u8],
}

/// FileStreamInformation, class 22 (MS-FSCC 2.4.43), an entry. `name` is UTF-16.
#[derive(Clone, Copy, Debug, PartialEq, Eq)]
pub struct FileStreamInformation<'a> {
    pub next_entry_offset: u32,
    pub stream_size: u64,
    pub stream_allocation_size: u64,
    pub name: &'a [u8],
}

/// FileFsVolumeInformation, class 1 (MS-FSCC 2.5.9). `label` is UTF-16.
#[derive(Clone, Copy, Debug, PartialEq, Eq)]
pub struct FileFsVolumeInformation<'a> {
    pub volume_creation_time: u64,
    pub volume_serial_number: u32,
    pub supports_objects: u8,
    pub label: &'a [u8],
}

/// FileFsAttributeInformation, class 5 (MS-FSCC 2.5.1). `name`, the file system's, is UTF-16.
#[derive(Clone, Copy, Debug, PartialEq, Eq)]
pub struct FileFsAttributeInformation<'a> {
    pub file_system_attributes: u32,
    pub maximum_component_name_length: u32,
    pub name: &'a [u8],
}
