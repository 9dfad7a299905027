//! Laws of the grammar of information over its definitions alone: the messages that ask and set it, its
//! classes, listings and create contexts. Each law is the contract of a function that does nothing.

mod create_context;
mod directory;
mod file_class;
mod interface;
mod ioctl;
mod object_id;
mod query_directory;
mod query_info;
mod set_info;
mod volume_class;

pub use create_context::{create_context_law, create_contexts_law, reply_contexts_law};
pub use directory::{directory_entry_law, listing_law};
pub use file_class::{
    file_access_information_law, file_alignment_information_law, file_all_information_law,
    file_allocation_information_law, file_basic_information_law, file_disposition_information_law,
    file_ea_information_law, file_end_of_file_information_law, file_internal_information_law,
    file_mode_information_law, file_name_information_law, file_network_open_information_law,
    file_position_information_law, file_rename_information_law, file_standard_information_law,
    file_stream_information_law,
};
pub use interface::network_interface_law;
pub use ioctl::{ioctl_request_law, ioctl_response_law};
pub use object_id::object_id_buffer_law;
pub use query_directory::{query_directory_request_law, query_directory_response_law};
pub use query_info::{query_info_request_law, query_info_response_law};
pub use set_info::{set_info_request_law, set_info_response_law};
pub use volume_class::{
    file_fs_attribute_information_law, file_fs_device_information_law,
    file_fs_full_size_information_law, file_fs_sector_size_information_law,
    file_fs_size_information_law, file_fs_volume_information_law,
};
