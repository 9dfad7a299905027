//! The elements of a LOCK request.
use crate::words::{bytes_of, push_digits};
use std::alloc::{AllocError, Global};
use std::fmt::Write;
use wire_bytes::{Bytes, lock_element_at, push_lock_element};

// Puts the element at an index, and behind others how it is written.
fn push_element(
    said: &mut String,
    written: &mut Bytes,
    bytes: &[u8],
    index: usize,
) -> Result<(), AllocError> {
    match lock_element_at(bytes, index) {
        Some(element) => {
            write!(said, "\n  {element:?}")?;
            push_lock_element(written, &element)
        }
        None => write!(said, "\n  none at {index}"),
    }
}

fn push_elements(said: &mut String, written: &mut Bytes, bytes: &[u8]) -> Result<(), AllocError> {
    for index in 0..=bytes.len() / 24 {
        push_element(said, written, bytes, index)?;
    }
    said.push_str("\n  ")
}

/// The elements that stand in bytes, one a line, and how they are written.
pub fn elements(said: &mut String, alloc: Global, digits: &str) -> Result<(), AllocError> {
    let bytes = bytes_of(alloc, digits)?;
    let mut written = Bytes::new(alloc);
    said.push_str("elements:")?;
    push_elements(said, &mut written, &bytes)?;
    push_digits(said, written.as_slice())
}
