//! Headers, the messages of a frame and texts: what is read, written again.
use crate::vectors::refused;
use crate::words::{bytes_of, push_bytes, push_digits};
use std::alloc::{AllocError, Global};
use std::fmt::Write;
use wire_bytes::{Span, read_header, split_compound, text_of_utf16, utf16_of, write_header};

/// What is said of a header.
pub fn header(said: &mut String, m: &[u8]) -> Result<(), AllocError> {
    match read_header(m) {
        Ok(value) => {
            write!(said, "{value:?}\n  ")?;
            push_digits(said, &write_header(&value))
        }
        Err(refusal) => refused(said, &refusal),
    }
}

fn push_text(said: &mut String, alloc: Global, text: &str) -> Result<(), AllocError> {
    write!(said, "{text}\n  ")?;
    push_bytes(said, utf16_of(alloc, text))
}

/// The text of UTF-16, and its UTF-16 again.
pub fn text(said: &mut String, alloc: Global, digits: &str) -> Result<(), AllocError> {
    said.push_str("text: ")?;
    let bytes = bytes_of(alloc, digits)?;
    match text_of_utf16(alloc, &bytes) {
        Ok(text) => push_text(said, alloc, text.as_str()),
        Err(refusal) => refused(said, &refusal),
    }
}

fn push_spans(said: &mut String, spans: &[Span]) -> Result<(), AllocError> {
    for span in spans {
        write!(said, " {}..{}", span.start, span.end)?;
    }
    Ok(())
}

/// The places of the messages of a frame.
pub fn compound(said: &mut String, alloc: Global, digits: &str) -> Result<(), AllocError> {
    said.push_str("compound:")?;
    let bytes = bytes_of(alloc, digits)?;
    match split_compound(alloc, &bytes) {
        Ok(parts) => push_spans(said, parts.as_slice()),
        Err(refusal) => write!(said, " {refusal:?}"),
    }
}
