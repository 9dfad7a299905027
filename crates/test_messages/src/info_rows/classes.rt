//! The information classes, and the entry of a network interface.
use crate::vectors::{refused, told, unwritten};
use std::alloc::{AllocError, Global};
use wire_info::classes::*;

fn file_basic_information(said: &mut String, alloc: Global, m: &[u8]) -> Result<(), AllocError> {
    both_ways!(
        said,
        alloc,
        m,
        read_file_basic_information,
        write_file_basic_information
    )
}

fn file_standard_information(said: &mut String, alloc: Global, m: &[u8]) -> Result<(), AllocError> {
    both_ways!(
        said,
        alloc,
        m,
        read_file_standard_information,
        write_file_standard_information
    )
}

fn file_internal_information(said: &mut String, alloc: Global, m: &[u8]) -> Result<(), AllocError> {
    both_ways!(
        said,
        alloc,
        m,
        read_file_internal_information,
        write_file_internal_information
    )
}

fn file_disposition_information(
    said: &mut String,
    alloc: Global,
    m: &[u8],
) -> Result<(), AllocError> {
    both_ways!(
        said,
        alloc,
        m,
        read_file_disposition_information,
        write_file_disposition_information
    )
}

fn file_allocation_information(
    said: &mut String,
    alloc: Global,
    m: &[u8],
) -> Result<(), AllocError> {
    both_ways!(
        said,
        alloc,
        m,
        read_file_allocation_information,
        write_file_allocation_information
    )
}

fn file_end_of_file_information(
    said: &mut String,
    alloc: Global,
    m: &[u8],
) -> Result<(), AllocError> {
    both_ways!(
        said,
        alloc,
        m,
        read_file_end_of_file_information,
        write_file_end_of_file_information
    )
}

fn file_network_open_information(
    said: &mut String,
    alloc: Global,
    m: &[u8],
) -> Result<(), AllocError> {
    both_ways!(
        said,
        alloc,
        m,
        read_file_network_open_information,
        write_file_network_open_information
    )
}

fn file_rename_information(said: &mut String, alloc: Global, m: &[u8]) -> Result<(), AllocError> {
    both_ways!(said, alloc, m, read_file_rename_information, write_file_rename_information, v => v.name.len() < 0x1_0000_0000)
}

fn file_all_information(said: &mut String, alloc: Global, m: &[u8]) -> Result<(), AllocError> {
    both_ways!(said, alloc, m, read_file_all_information, write_file_all_information, v => v.name.len() < 0x1_0000_0000)
}

fn file_fs_size_information(said: &mut String, alloc: Global, m: &[u8]) -> Result<(), AllocError> {
    both_ways!(
        said,
        alloc,
        m,
        read_file_fs_size_information,
        write_file_fs_size_information
    )
}

fn file_fs_device_information(
    said: &mut String,
    alloc: Global,
    m: &[u8],
) -> Result<(), AllocError> {
    both_ways!(
        said,
        alloc,
        m,
        read_file_fs_device_information,
        write_file_fs_device_information
    )
}

fn file_fs_full_size_information(
    said: &mut String,
    alloc: Global,
    m: &[u8],
) -> Result<(), AllocError> {
    both_ways!(
        said,
        alloc,
        m,
        read_file_fs_full_size_information,
        write_file_fs_full_size_information
    )
}

fn file_fs_volume_information(
    said: &mut String,
    alloc: Global,
    m: &[u8],
) -> Result<(), AllocError> {
    both_ways!(said, alloc, m, read_file_fs_volume_information, write_file_fs_volume_information, v => v.label.len() < 0x1_0000_0000)
}

fn file_fs_attribute_information(
    said: &mut String,
    alloc: Global,
    m: &[u8],
) -> Result<(), AllocError> {
    both_ways!(said, alloc, m, read_file_fs_attribute_information, write_file_fs_attribute_information, v => v.name.len() < 0x1_0000_0000)
}

fn file_ea_information(said: &mut String, alloc: Global, m: &[u8]) -> Result<(), AllocError> {
    both_ways!(
        said,
        alloc,
        m,
        read_file_ea_information,
        write_file_ea_information
    )
}

fn file_access_information(said: &mut String, alloc: Global, m: &[u8]) -> Result<(), AllocError> {
    both_ways!(
        said,
        alloc,
        m,
        read_file_access_information,
        write_file_access_information
    )
}

fn file_position_information(said: &mut String, alloc: Global, m: &[u8]) -> Result<(), AllocError> {
    both_ways!(
        said,
        alloc,
        m,
        read_file_position_information,
        write_file_position_information
    )
}

fn file_mode_information(said: &mut String, alloc: Global, m: &[u8]) -> Result<(), AllocError> {
    both_ways!(
        said,
        alloc,
        m,
        read_file_mode_information,
        write_file_mode_information
    )
}

fn file_alignment_information(
    said: &mut String,
    alloc: Global,
    m: &[u8],
) -> Result<(), AllocError> {
    both_ways!(
        said,
        alloc,
        m,
        read_file_alignment_information,
        write_file_alignment_information
    )
}

fn file_fs_sector_size_information(
    said: &mut String,
    alloc: Global,
    m: &[u8],
) -> Result<(), AllocError> {
    both_ways!(
        said,
        alloc,
        m,
        read_file_fs_sector_size_information,
        write_file_fs_sector_size_information
    )
}

fn file_name_information(said: &mut String, alloc: Global, m: &[u8]) -> Result<(), AllocError> {
    both_ways!(said, alloc, m, read_file_name_information, write_file_name_information, v => v.name.len() < 0x1_0000_0000)
}

fn file_stream_information(said: &mut String, alloc: Global, m: &[u8]) -> Result<(), AllocError> {
    both_ways!(said, alloc, m, read_file_stream_information, write_file_stream_information, v => v.name.len() < 0x1_0000_0000)
}

fn network_interface(said: &mut String, alloc: Global, m: &[u8]) -> Result<(), AllocError> {
    both_ways!(
        said,
        alloc,
        m,
        read_network_interface,
        write_network_interface
    )
}

fn object_id_buffer(said: &mut String, alloc: Global, m: &[u8]) -> Result<(), AllocError> {
    both_ways!(
        said,
        alloc,
        m,
        read_object_id_buffer,
        write_object_id_buffer
    )
}

fn file_class(said: &mut String, alloc: Global, word: &str, m: &[u8]) -> Result<(), AllocError> {
    match word {
        "file_basic_information" => file_basic_information(said, alloc, m),
        "file_standard_information" => file_standard_information(said, alloc, m),
        "file_internal_information" => file_internal_information(said, alloc, m),
        "file_disposition_information" => file_disposition_information(said, alloc, m),
        "file_allocation_information" => file_allocation_information(said, alloc, m),
        "file_end_of_file_information" => file_end_of_file_information(said, alloc, m),
        "file_ea_information" => file_ea_information(said, alloc, m),
        "file_access_information" => file_access_information(said, alloc, m),
        "file_position_information" => file_position_information(said, alloc, m),
        "file_mode_information" => file_mode_information(said, alloc, m),
        "file_alignment_information" => file_alignment_information(said, alloc, m),
        "file_network_open_information" => file_network_open_information(said, alloc, m),
        _ => said.push_str("an unknown word"),
    }
}

fn volume_class(said: &mut String, alloc: Global, word: &str, m: &[u8]) -> Result<(), AllocError> {
    match word {
        "file_fs_size_information" => file_fs_size_information(said, alloc, m),
        "file_fs_device_information" => file_fs_device_information(said, alloc, m),
        "file_fs_full_size_information" => file_fs_full_size_information(said, alloc, m),
        "file_fs_volume_information" => file_fs_volume_information(said, alloc, m),
        "file_fs_attribute_information" => file_fs_attribute_information(said, alloc, m),
        "file_fs_sector_size_information" => file_fs_sector_size_information(said, alloc, m),
        "network_interface" => network_interface(said, alloc, m),
        "object_id_buffer" => object_id_buffer(said, alloc, m),
        _ => file_class(said, alloc, word, m),
    }
}

/// What is said of the bytes of a class.
pub fn class(said: &mut String, alloc: Global, word: &str, m: &[u8]) -> Result<(), AllocError> {
    match word {
        "file_rename_information" => file_rename_information(said, alloc, m),
        "file_all_information" => file_all_information(said, alloc, m),
        "file_name_information" => file_name_information(said, alloc, m),
        "file_stream_information" => file_stream_information(said, alloc, m),
        _ => volume_class(said, alloc, word, m),
    }
}
