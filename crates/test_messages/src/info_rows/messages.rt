//! IOCTL, QUERY_DIRECTORY, QUERY_INFO and SET_INFO: what is read, written again.
use crate::vectors::{refused, told, unwritten};
use std::alloc::{AllocError, Global};
use wire_info::info_messages::*;

fn ioctl_request(said: &mut String, alloc: Global, m: &[u8]) -> Result<(), AllocError> {
    both_ways!(said, alloc, m, read_ioctl_request, write_ioctl_request, v => v.input.len() < 0xffff_ff00 && v.output.len() < 0x1_0000_0000)
}

fn ioctl_response(said: &mut String, alloc: Global, m: &[u8]) -> Result<(), AllocError> {
    both_ways!(said, alloc, m, read_ioctl_response, write_ioctl_response, v => v.input.len() < 0xffff_ff00 && v.output.len() < 0x1_0000_0000)
}

fn query_directory_request(said: &mut String, alloc: Global, m: &[u8]) -> Result<(), AllocError> {
    both_ways!(said, alloc, m, read_query_directory_request, write_query_directory_request, v => v.name.len() < 0x1_0000)
}

fn query_directory_response(said: &mut String, alloc: Global, m: &[u8]) -> Result<(), AllocError> {
    both_ways!(said, alloc, m, read_query_directory_response, write_query_directory_response, v => v.output.len() < 0x1_0000_0000)
}

fn query_info_request(said: &mut String, alloc: Global, m: &[u8]) -> Result<(), AllocError> {
    both_ways!(said, alloc, m, read_query_info_request, write_query_info_request, v => v.input.len() < 0x1_0000_0000)
}

fn query_info_response(said: &mut String, alloc: Global, m: &[u8]) -> Result<(), AllocError> {
    both_ways!(said, alloc, m, read_query_info_response, write_query_info_response, v => v.output.len() < 0x1_0000_0000)
}

fn set_info_request(said: &mut String, alloc: Global, m: &[u8]) -> Result<(), AllocError> {
    both_ways!(said, alloc, m, read_set_info_request, write_set_info_request, v => v.payload.len() < 0x1_0000_0000)
}

fn set_info_response(said: &mut String, alloc: Global, m: &[u8]) -> Result<(), AllocError> {
    both_ways!(
        said,
        alloc,
        m,
        read_set_info_response,
        write_set_info_response
    )
}

/// What is said of a message.
pub fn message(said: &mut String, alloc: Global, word: &str, m: &[u8]) -> Result<(), AllocError> {
    match word {
        "ioctl_request" => ioctl_request(said, alloc, m),
        "ioctl_response" => ioctl_response(said, alloc, m),
        "query_directory_request" => query_directory_request(said, alloc, m),
        "query_directory_response" => query_directory_response(said, alloc, m),
        "query_info_request" => query_info_request(said, alloc, m),
        "query_info_response" => query_info_response(said, alloc, m),
        "set_info_request" => set_info_request(said, alloc, m),
        "set_info_response" => set_info_response(said, alloc, m),
        _ => said.push_str("an unknown word"),
    }
}
