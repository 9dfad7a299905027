//! The information classes of files and of volumes (MS-FSCC 2.4, 2.5), the entry of the answer that tells network
//! interfaces (MS-SMB2 2.2.32.5) and an object id (MS-FSCC 2.1.3.1), both ways. A reader takes the bytes of one class,
//! a writer gives them.

mod directory_entry;
mod directory_reading;
mod directory_writing;
mod file_access_information;
mod file_alignment_information;
mod file_all_information;
mod file_allocation_information;
mod file_basic_information;
mod file_disposition_information;
mod file_ea_information;
mod file_end_of_file_information;
mod file_fs_attribute_information;
mod file_fs_device_information;
mod file_fs_full_size_information;
mod file_fs_sector_size_information;
mod file_fs_size_information;
mod file_fs_volume_information;
mod file_internal_information;
mod file_mode_information;
mod file_name_information;
mod file_network_open_information;
mod file_position_information;
mod file_rename_information;
mod file_standard_information;
mod file_stream_information;
mod listing;
mod named;
mod network_interface;
mod object_id_buffer;

pub use directory_entry::DirectoryEntry;
pub use directory_reading::read_directory_entry;
pub use directory_writing::{directory_entry_size, put_directory_entry};
pub use file_access_information::{read_file_access_information, write_file_access_information};
pub use file_alignment_information::{
    read_file_alignment_information, write_file_alignment_information,
};
pub use file_all_information::{read_file_all_information, write_file_all_information};
pub use file_allocation_information::{
    read_file_allocation_information, write_file_allocation_information,
};
pub use file_basic_information::{read_file_basic_information, write_file_basic_information};
pub use file_disposition_information::{
    read_file_disposition_information, write_file_disposition_information,
};
pub use file_ea_information::{read_file_ea_information, write_file_ea_information};
pub use file_end_of_file_information::{
    read_file_end_of_file_information, write_file_end_of_file_information,
};
pub use file_fs_attribute_information::{
    read_file_fs_attribute_information, write_file_fs_attribute_information,
};
pub use file_fs_device_information::{
    read_file_fs_device_information, write_file_fs_device_information,
};
pub use file_fs_full_size_information::{
    read_file_fs_full_size_information, write_file_fs_full_size_information,
};
pub use file_fs_sector_size_information::{
    read_file_fs_sector_size_information, write_file_fs_sector_size_information,
};
pub use file_fs_size_information::{read_file_fs_size_information, write_file_fs_size_information};
pub use file_fs_volume_information::{
    read_file_fs_volume_information, write_file_fs_volume_information,
};
pub use file_internal_information::{
    read_file_internal_information, write_file_internal_information,
};
pub use file_mode_information::{read_file_mode_information, write_file_mode_information};
pub use file_name_information::{read_file_name_information, write_file_name_information};
pub use file_network_open_information::{
    read_file_network_open_information, write_file_network_open_information,
};
pub use file_position_information::{
    read_file_position_information, write_file_position_information,
};
pub use file_rename_information::{read_file_rename_information, write_file_rename_information};
pub use file_standard_information::{
    read_file_standard_information, write_file_standard_information,
};
pub use file_stream_information::{read_file_stream_information, write_file_stream_information};
pub use listing::{FirstEntry, ListingError, first_entry, read_listing};
pub use named::{
    FileAllInformation, FileFsAttributeInformation, FileFsVolumeInformation, FileNameInformation,
    FileRenameInformation, FileStreamInformation,
};
pub use network_interface::{read_network_interface, write_network_interface};
pub use object_id_buffer::{read_object_id_buffer, write_object_id_buffer};
pub use spec_wire::{
    DirectoryClass, FileAccessInformation, FileAlignmentInformation, FileAllocationInformation,
    FileBasicInformation, FileDispositionInformation, FileEaInformation, FileEndOfFileInformation,
    FileFsDeviceInformation, FileFsFullSizeInformation, FileFsSectorSizeInformation,
    FileFsSizeInformation, FileInternalInformation, FileModeInformation,
    FileNetworkOpenInformation, FilePositionInformation, FileStandardInformation, NetworkInterface,
    ObjectIdBuffer,
};
