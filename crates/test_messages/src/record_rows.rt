//! The records that bodies of the journal hold, and the body that is written of them: the answer to each row of a table.

use crate::vectors::{self, refused, unwritten};
use crate::words::{bytes_in, number_of, push_bytes, word};
use journal_bytes::{Records, can_write, read_records, write_records};
use std::alloc::{AllocError, Global};
use std::fmt::Write;

// Puts the body that is written of records.
fn push_written(said: &mut String, alloc: Global, records: &Records) -> Result<(), AllocError> {
    said.push_str("\n  ")?;
    if can_write(records.as_slice()) {
        push_bytes(said, write_records(alloc, records.as_slice()))
    } else {
        unwritten(said)
    }
}

// Puts the records, one a line, and the body that is written of them.
fn push_records(said: &mut String, alloc: Global, records: &Records) -> Result<(), AllocError> {
    write!(said, "{}", records.len())?;
    for record in records.as_slice() {
        write!(said, "\n  {record:?}")?;
    }
    push_written(said, alloc, records)
}

/// What is said of the body of a journal of version 2.
pub fn outcome(said: &mut String, alloc: Global, body: &[u8]) -> Result<(), AllocError> {
    match read_records(alloc, body, 2) {
        Ok(records) => push_written(said, alloc, &records),
        Err(refusal) => refused(said, &refusal),
    }
}

// The records of a row: the version, and the digits of the body.
fn records(said: &mut String, alloc: Global, words: &[&str]) -> Result<(), AllocError> {
    said.push_str("records: ")?;
    let body = bytes_in(alloc, words, 2)?;
    match read_records(alloc, &body, number_of(word(words, 1))) {
        Ok(records) => push_records(said, alloc, &records),
        Err(refusal) => refused(said, &refusal),
    }
}

/// The answer to a row.
pub fn answer(said: &mut String, alloc: Global, words: &[&str]) -> Result<(), AllocError> {
    match word(words, 0) {
        "records" => records(said, alloc, words),
        _ => vectors::answer(said, alloc, "record", words),
    }
}
