//! Listings by class.
use crate::vectors::unwritten;
use crate::words::{bytes_in, push_digits, word};
use std::alloc::{AllocError, Global};
use std::fmt::Write;
use wire_bytes::Out;
use wire_info::{
    DirectoryClass, DirectoryEntry, ListingError, directory_entry_size, put_directory_entry,
    read_directory_entry, read_listing,
};

fn class_of(number: &str) -> Option<DirectoryClass> {
    match number {
        "1" => Some(DirectoryClass::Directory),
        "2" => Some(DirectoryClass::FullDirectory),
        "3" => Some(DirectoryClass::BothDirectory),
        "12" => Some(DirectoryClass::Names),
        "37" => Some(DirectoryClass::IdBothDirectory),
        "38" => Some(DirectoryClass::IdFullDirectory),
        _ => None,
    }
}

// Whether an entry by itself reads back, and takes as many bytes as is told.
fn reads_back(
    alloc: Global,
    class: DirectoryClass,
    entry: &DirectoryEntry<'_>,
) -> Result<bool, AllocError> {
    if entry.name.len() >= 0x8000_0000 {
        return Ok(false);
    }
    let mut alone = Out::new(alloc);
    put_directory_entry(&mut alone, class, entry, false)?;
    let spelling = alone.finish();
    let again = read_directory_entry(class, spelling.as_slice());
    let size = directory_entry_size(class, entry);
    match again {
        Ok(again) => Ok(again == *entry && spelling.len() == size),
        Err(_) => Ok(false),
    }
}

// Tells an entry, and puts it behind others.
fn push_entry(
    said: &mut String,
    alloc: Global,
    out: &mut Out,
    class: DirectoryClass,
    entry: &DirectoryEntry<'_>,
    more: bool,
) -> Result<(), AllocError> {
    if !reads_back(alloc, class, entry)? {
        said.push_str("\n  another entry")?;
    }
    if entry.name.len() >= 0x8000_0000 {
        return unwritten(said);
    }
    write!(said, "\n  {entry:?}")?;
    put_directory_entry(out, class, entry, more)
}

// Tells the entries, one a line, and puts them behind each other.
fn push_each(
    said: &mut String,
    alloc: Global,
    out: &mut Out,
    class: DirectoryClass,
    entries: &[DirectoryEntry<'_>],
) -> Result<(), AllocError> {
    let mut left = entries.len();
    write!(said, "{left}")?;
    for entry in entries {
        left = left.saturating_sub(1);
        push_entry(said, alloc, out, class, entry, left > 0)?;
    }
    said.push_str("\n  ")
}

// Tells the entries and the listing that is written of them.
fn push_entries(
    said: &mut String,
    alloc: Global,
    class: DirectoryClass,
    entries: &[DirectoryEntry<'_>],
) -> Result<(), AllocError> {
    let mut out = Out::new(alloc);
    push_each(said, alloc, &mut out, class, entries)?;
    push_digits(said, out.finish().as_slice())
}

fn push_listing(
    said: &mut String,
    alloc: Global,
    class: DirectoryClass,
    bytes: &[u8],
) -> Result<(), AllocError> {
    match read_listing(alloc, class, bytes) {
        Ok(entries) => push_entries(said, alloc, class, entries.as_slice()),
        Err(ListingError::Memory) => Err(AllocError),
        Err(ListingError::Message(refusal)) => write!(said, "{refusal:?}"),
    }
}

/// What is said of the listing of a row: its class, and the digits.
pub fn answer(said: &mut String, alloc: Global, words: &[&str]) -> Result<(), AllocError> {
    said.push_str("listing: ")?;
    let bytes = bytes_in(alloc, words, 2)?;
    match class_of(word(words, 1)) {
        Some(class) => push_listing(said, alloc, class, &bytes),
        None => said.push_str("no class"),
    }
}
