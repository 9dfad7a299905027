//! Chains of create contexts, of requests and of responses.
use crate::vectors::{refused, told};
use std::alloc::{AllocError, Global};
use wire_bytes::{read_chain, read_reply_chain, write_chain, write_reply_chain};

/// What is said of the contexts of a request.
pub fn chain(said: &mut String, alloc: Global, m: &[u8]) -> Result<(), AllocError> {
    both_ways!(said, alloc, m, read_chain, write_chain)
}

/// What is said of the contexts of a response.
pub fn answers(said: &mut String, alloc: Global, m: &[u8]) -> Result<(), AllocError> {
    both_ways!(said, alloc, m, read_reply_chain, write_reply_chain)
}
