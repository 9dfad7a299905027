//! The messages of the dialog and of trees, and the error response: what is read, written again.
use crate::vectors::{refused, told, unwritten};
use std::alloc::{AllocError, Global};
use wire_bytes::session_messages::*;

fn negotiate_request(said: &mut String, alloc: Global, m: &[u8]) -> Result<(), AllocError> {
    both_ways!(said, alloc, m, read_negotiate_request, write_negotiate_request, v => v.dialects.len() % 2 == 0 && v.dialects.len() > 0 && v.dialects.len() < 2 * 0x1_0000)
}

fn negotiate_response(said: &mut String, alloc: Global, m: &[u8]) -> Result<(), AllocError> {
    both_ways!(said, alloc, m, read_negotiate_response, write_negotiate_response, v => v.security.len() < 0x1_0000)
}

fn session_setup_request(said: &mut String, alloc: Global, m: &[u8]) -> Result<(), AllocError> {
    both_ways!(said, alloc, m, read_session_setup_request, write_session_setup_request, v => v.security.len() < 0x1_0000)
}

fn session_setup_response(said: &mut String, alloc: Global, m: &[u8]) -> Result<(), AllocError> {
    both_ways!(said, alloc, m, read_session_setup_response, write_session_setup_response, v => v.security.len() < 0x1_0000)
}

fn tree_connect_request(said: &mut String, alloc: Global, m: &[u8]) -> Result<(), AllocError> {
    both_ways!(said, alloc, m, read_tree_connect_request, write_tree_connect_request, v => v.path.len() < 0x1_0000)
}

fn tree_connect_response(said: &mut String, alloc: Global, m: &[u8]) -> Result<(), AllocError> {
    both_ways!(
        said,
        alloc,
        m,
        read_tree_connect_response,
        write_tree_connect_response
    )
}

fn tree_disconnect_request(said: &mut String, alloc: Global, m: &[u8]) -> Result<(), AllocError> {
    both_ways!(
        said,
        alloc,
        m,
        read_tree_disconnect_request,
        write_tree_disconnect_request
    )
}

fn tree_disconnect_response(said: &mut String, alloc: Global, m: &[u8]) -> Result<(), AllocError> {
    both_ways!(
        said,
        alloc,
        m,
        read_tree_disconnect_response,
        write_tree_disconnect_response
    )
}

fn logoff_request(said: &mut String, alloc: Global, m: &[u8]) -> Result<(), AllocError> {
    both_ways!(said, alloc, m, read_logoff_request, write_logoff_request)
}

fn logoff_response(said: &mut String, alloc: Global, m: &[u8]) -> Result<(), AllocError> {
    both_ways!(said, alloc, m, read_logoff_response, write_logoff_response)
}

fn echo_request(said: &mut String, alloc: Global, m: &[u8]) -> Result<(), AllocError> {
    both_ways!(said, alloc, m, read_echo_request, write_echo_request)
}

fn echo_response(said: &mut String, alloc: Global, m: &[u8]) -> Result<(), AllocError> {
    both_ways!(said, alloc, m, read_echo_response, write_echo_response)
}

fn error_response(said: &mut String, alloc: Global, m: &[u8]) -> Result<(), AllocError> {
    both_ways!(said, alloc, m, read_error_response, write_error_response)
}

fn bare_message(said: &mut String, alloc: Global, word: &str, m: &[u8]) -> Result<(), AllocError> {
    match word {
        "tree_disconnect_request" => tree_disconnect_request(said, alloc, m),
        "tree_disconnect_response" => tree_disconnect_response(said, alloc, m),
        "logoff_request" => logoff_request(said, alloc, m),
        "logoff_response" => logoff_response(said, alloc, m),
        "echo_request" => echo_request(said, alloc, m),
        "echo_response" => echo_response(said, alloc, m),
        "error_response" => error_response(said, alloc, m),
        _ => said.push_str("an unknown word"),
    }
}

/// What is said of a message.
pub fn message(said: &mut String, alloc: Global, word: &str, m: &[u8]) -> Result<(), AllocError> {
    match word {
        "negotiate_request" => negotiate_request(said, alloc, m),
        "negotiate_response" => negotiate_response(said, alloc, m),
        "session_setup_request" => session_setup_request(said, alloc, m),
        "session_setup_response" => session_setup_response(said, alloc, m),
        "tree_connect_request" => tree_connect_request(said, alloc, m),
        "tree_connect_response" => tree_connect_response(said, alloc, m),
        _ => bare_message(said, alloc, word, m),
    }
}
