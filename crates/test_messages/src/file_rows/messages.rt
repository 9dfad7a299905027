//! The messages of CREATE to LOCK: what is read, written again.
use crate::vectors::{refused, told, unwritten};
use std::alloc::{AllocError, Global};
use wire_bytes::file_messages::*;

fn create_request(said: &mut String, alloc: Global, m: &[u8]) -> Result<(), AllocError> {
    both_ways!(said, alloc, m, read_create_request, write_create_request, v => v.name.len() < 0x1_0000 && v.contexts.len() < 0x1_0000_0000)
}

fn create_response(said: &mut String, alloc: Global, m: &[u8]) -> Result<(), AllocError> {
    both_ways!(said, alloc, m, read_create_response, write_create_response, v => v.contexts.len() < 0x1_0000_0000)
}

fn close_request(said: &mut String, alloc: Global, m: &[u8]) -> Result<(), AllocError> {
    both_ways!(said, alloc, m, read_close_request, write_close_request)
}

fn close_response(said: &mut String, alloc: Global, m: &[u8]) -> Result<(), AllocError> {
    both_ways!(said, alloc, m, read_close_response, write_close_response)
}

fn flush_request(said: &mut String, alloc: Global, m: &[u8]) -> Result<(), AllocError> {
    both_ways!(said, alloc, m, read_flush_request, write_flush_request)
}

fn flush_response(said: &mut String, alloc: Global, m: &[u8]) -> Result<(), AllocError> {
    both_ways!(said, alloc, m, read_flush_response, write_flush_response)
}

fn read_request(said: &mut String, alloc: Global, m: &[u8]) -> Result<(), AllocError> {
    both_ways!(said, alloc, m, read_read_request, write_read_request)
}

fn read_response(said: &mut String, alloc: Global, m: &[u8]) -> Result<(), AllocError> {
    both_ways!(said, alloc, m, read_read_response, write_read_response, v => v.payload.len() < 0x1_0000_0000)
}

fn write_request(said: &mut String, alloc: Global, m: &[u8]) -> Result<(), AllocError> {
    both_ways!(said, alloc, m, read_write_request, write_write_request, v => v.payload.len() < 0x1_0000_0000)
}

fn write_response(said: &mut String, alloc: Global, m: &[u8]) -> Result<(), AllocError> {
    both_ways!(said, alloc, m, read_write_response, write_write_response)
}

fn lock_request(said: &mut String, alloc: Global, m: &[u8]) -> Result<(), AllocError> {
    both_ways!(said, alloc, m, read_lock_request, write_lock_request, v => v.locks.len() % 24 == 0 && v.locks.len() > 0 && v.locks.len() < 24 * 0x1_0000)
}

fn lock_response(said: &mut String, alloc: Global, m: &[u8]) -> Result<(), AllocError> {
    both_ways!(said, alloc, m, read_lock_response, write_lock_response)
}

fn bytes_message(said: &mut String, alloc: Global, word: &str, m: &[u8]) -> Result<(), AllocError> {
    match word {
        "read_request" => read_request(said, alloc, m),
        "read_response" => read_response(said, alloc, m),
        "write_request" => write_request(said, alloc, m),
        "write_response" => write_response(said, alloc, m),
        "lock_request" => lock_request(said, alloc, m),
        "lock_response" => lock_response(said, alloc, m),
        _ => said.push_str("an unknown word"),
    }
}

/// What is said of a message.
pub fn message(said: &mut String, alloc: Global, word: &str, m: &[u8]) -> Result<(), AllocError> {
    match word {
        "create_request" => create_request(said, alloc, m),
        "create_response" => create_response(said, alloc, m),
        "close_request" => close_request(said, alloc, m),
        "close_response" => close_response(said, alloc, m),
        "flush_request" => flush_request(said, alloc, m),
        "flush_response" => flush_response(said, alloc, m),
        _ => bytes_message(said, alloc, word, m),
    }
}
