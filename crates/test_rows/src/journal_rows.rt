//! Journals on disks in memory that fail as planned and on files. A row is what the journal stands on, ` | ` and what is done with it.
//! Bytes are hexadecimal digits, `-` for none.

mod calls;
mod disks;

use crate::words::{Fault, Words};

/// Puts what is answered to a row.
pub fn push_answer(
    said: &mut String,
    rt: &HostRuntime,
    words: &mut Words<'_>,
) -> Result<(), Fault> {
    let mut head = Words::new(words.until(" | "));
    let calls = words.rest();
    let kind = head.next();
    match kind {
        "file" => disks::push_file(said, rt, &mut head, calls),
        "device" => disks::push_device(said, rt, head.next(), calls),
        _ => disks::push_in_memory(said, rt.alloc(), kind, &mut head, calls),
    }
}
