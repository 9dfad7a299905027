//! Each message has at most one value, what is spelled reads back, and no message id is granted twice. It is a room
//! because these laws need nothing but the definitions of bytes. Readers and writers of messages, and the laws on
//! commands, stand on it.
#![tactic(auto)]

pub mod credits;
pub mod info;
pub mod messages;

pub use credits::{each_id_once_law, nothing_is_refused_law};
pub use info::{
    create_context_law, create_contexts_law, directory_entry_law, file_access_information_law,
    file_alignment_information_law, file_all_information_law, file_allocation_information_law,
    file_basic_information_law, file_disposition_information_law, file_ea_information_law,
    file_end_of_file_information_law, file_fs_attribute_information_law,
    file_fs_device_information_law, file_fs_full_size_information_law,
    file_fs_sector_size_information_law, file_fs_size_information_law,
    file_fs_volume_information_law, file_internal_information_law, file_mode_information_law,
    file_name_information_law, file_network_open_information_law, file_position_information_law,
    file_rename_information_law, file_standard_information_law, file_stream_information_law,
    ioctl_request_law, ioctl_response_law, listing_law, network_interface_law,
    object_id_buffer_law, query_directory_request_law, query_directory_response_law,
    query_info_request_law, query_info_response_law, reply_contexts_law, set_info_request_law,
    set_info_response_law,
};
pub use messages::{
    bare_law, close_request_law, close_response_law, compound_law, create_request_law,
    create_response_law, error_response_law, flush_request_law, flush_response_law, frames_law,
    header_law, lock_element_law, lock_request_law, lock_response_law, negotiate_request_law,
    negotiate_response_law, number_law, offer_law, part_law, read_request_law, read_response_law,
    session_setup_request_law, session_setup_response_law, table_law, text_law,
    tree_connect_request_law, tree_connect_response_law, write_request_law, write_response_law,
};
