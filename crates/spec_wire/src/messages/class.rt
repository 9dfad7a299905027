/// FileBasicInformation, class 4, asked and set (MS-FSCC 2.4.7).
#[derive(Clone, Copy, Debug, PartialEq, Eq)]
pub struct FileBasicInformation {
    pub creation_time: u64,
    pub last_access_time: u64,
    pub last_write_time: u64,
    pub change_time: u64,
    pub file_attributes: u32,
}

/// FileStandardInformation, class 5 (MS-FSCC 2.4.41).
#[derive(Clone, Copy, Debug, PartialEq, Eq)]
pub struct FileStandardInformation {
    pub allocation_size: u64,
    pub end_of_file: u64,
    pub number_of_links: u32,
    pub delete_pending: u8,
    pub directory: u8,
}

/// FileInternalInformation, class 6 (MS-FSCC 2.4.22).
#[derive(Clone, Copy, Debug, PartialEq, Eq)]
pub struct FileInternalInformation {
    pub index_number: u64,
}

/// FileEaInformation, class 7 (MS-FSCC 2.4.12).
#[derive(Clone, Copy, Debug, PartialEq, Eq)]
pub struct FileEaInformation {
    pub ea_size: u32,
}

/// FileAccessInformation, class 8 (MS-FSCC 2.4.1).
#[derive(Clone, Copy, Debug, PartialEq, Eq)]
pub struct FileAccessInformation {
    pub access_flags: u32,
}

/// FileDispositionInformation, class 13, set (MS-FSCC 2.4.11).
#[derive(Clone, Copy, Debug, PartialEq, Eq)]
pub struct FileDispositionInformation {
    pub delete_pending: u8,
}

/// FilePositionInformation, class 14, asked and set (MS-FSCC 2.4.35).
#[derive(Clone, Copy, Debug, PartialEq, Eq)]
pub struct FilePositionInformation {
    pub current_byte_offset: u64,
}

/// FileModeInformation, class 16, asked and set (MS-FSCC 2.4.26).
#[derive(Clone, Copy, Debug, PartialEq, Eq)]
pub struct FileModeInformation {
    pub mode: u32,
}

/// FileAlignmentInformation, class 17 (MS-FSCC 2.4.3).
#[derive(Clone, Copy, Debug, PartialEq, Eq)]
pub struct FileAlignmentInformation {
    pub alignment_requirement: u32,
}

/// FileAllocationInformation, class 19, set (MS-FSCC 2.4.4).
#[derive(Clone, Copy, Debug, PartialEq, Eq)]
pub struct FileAllocationInformation {
    pub allocation_size: u64,
}

/// FileEndOfFileInformation, class 20, set (MS-FSCC 2.4.13).
#[derive(Clone, Copy, Debug, PartialEq, Eq)]
pub struct FileEndOfFileInformation {
    pub end_of_file: u64,
}

/// FileNetworkOpenInformation, class 34 (MS-FSCC 2.4.29).
#[derive(Clone, Copy, Debug, PartialEq, Eq)]
pub struct FileNetworkOpenInformation {
    pub creation_time: u64,
    pub last_access_time: u64,
    pub last_write_time: u64,
    pub change_time: u64,
    pub allocation_size: u64,
    pub end_of_file: u64,
    pub file_attributes: u32,
}

/// FileFsSizeInformation, class 3 (MS-FSCC 2.5.8).
#[derive(Clone, Copy, Debug, PartialEq, Eq)]
pub struct FileFsSizeInformation {
    pub total_allocation_units: u64,
    pub available_allocation_units: u64,
    pub sectors_per_allocation_unit: u32,
    pub bytes_per_sector: u32,
}

/// FileFsDeviceInformation, class 4 (MS-FSCC 2.5.10).
#[derive(Clone, Copy, Debug, PartialEq, Eq)]
pub struct FileFsDeviceInformation {
    pub device_type: u32,
    pub characteristics: u32,
}

/// FileFsFullSizeInformation, class 7 (MS-FSCC 2.5.4).
#[derive(Clone, Copy, Debug, PartialEq, Eq)]
pub struct FileFsFullSizeInformation {
    pub total_allocation_units: u64,
    pub caller_available_allocation_units: u64,
    pub actual_available_allocation_units: u64,
    pub sectors_per_allocation_unit: u32,
    pub bytes_per_sector: u32,
}

/// FileFsSectorSizeInformation, class 11 (MS-FSCC 2.5.7).
#[derive(Clone, Copy, Debug, PartialEq, Eq)]
pub struct FileFsSectorSizeInformation {
    pub logical_bytes_per_sector: u32,
    pub physical_bytes_per_sector_for_atomicity: u32,
    pub physical_bytes_per_sector_for_performance: u32,
    pub file_system_effective_physical_bytes_per_sector_for_atomicity: u32,
    pub flags: u32,
    pub byte_offset_for_sector_alignment: u32,
    pub byte_offset_for_partition_alignment: u32,
}

/// An entry of FSCTL_QUERY_NETWORK_INTERFACE_INFO (MS-SMB2 2.2.32.5).
#[derive(Clone, Copy, Debug, PartialEq, Eq)]
pub struct NetworkInterface {
    pub next: u32,
    pub if_index: u32,
    pub capability: u32,
    pub link_speed: u64,
    pub family: u16,
    pub port: [u8; 2],
    pub address: [u8; 4],
}

/// A FILE_OBJECTID_BUFFER of type 1 (MS-FSCC 2.1.3.1). Its DomainId isn't used.
#[derive(Clone, Copy, Debug, PartialEq, Eq)]
pub struct ObjectIdBuffer {
    pub object_id: [u8; 16],
    pub birth_volume_id: [u8; 16],
    pub birth_object_id: [u8; 16],
}
