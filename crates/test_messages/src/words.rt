//! Words of a row, by their place, and what is put behind an answer. A word that is missing is read as empty, one that is no number as 0,
//! and digits that are none as no bytes or zeros: the answer is then another one than the one that is due.
use hex::FromHexError;
use sha2::{Digest, Sha256};
use std::alloc::{AllocError, Global};
use std::fmt::Write;

pub fn word<'a>(words: &[&'a str], place: usize) -> &'a str {
    words.get(place).copied().unwrap_or("")
}

/// The word as a text; an empty one is written `-`.
pub fn text<'a>(words: &[&'a str], place: usize) -> &'a str {
    match word(words, place) {
        "-" => "",
        text => text,
    }
}

pub fn number_of(word: &str) -> u32 {
    word.parse::<u32>().unwrap_or(0)
}

/// A number of 16 bits.
pub fn short(words: &[&str], place: usize) -> u16 {
    word(words, place).parse::<u16>().unwrap_or(0)
}

/// A number of 64 bits.
pub fn long(words: &[&str], place: usize) -> u64 {
    word(words, place).parse::<u64>().unwrap_or(0)
}

/// The bytes of digits, `-` for none.
pub fn bytes_of(alloc: Global, digits: &str) -> Result<Vec<u8>, AllocError> {
    match hex::decode(alloc, digits) {
        Ok(bytes) => Ok(bytes),
        Err(FromHexError::OutOfMemory) => Err(AllocError),
        Err(_) => Ok(Vec::new(alloc)),
    }
}

/// The bytes of the digits of a word.
pub fn bytes_in(alloc: Global, words: &[&str], place: usize) -> Result<Vec<u8>, AllocError> {
    bytes_of(alloc, word(words, place))
}

/// The bytes of the digits of a word, which are so many.
pub fn array<const N: usize>(words: &[&str], place: usize) -> [u8; N] {
    let mut bytes = [0; N];
    let _ = hex::decode_to_slice(word(words, place), &mut bytes);
    bytes
}

// So many bytes, of which byte i is (7 i + first) mod 256.
fn put_counted(bytes: &mut Vec<u8>, count: u32, first: u8) -> Result<(), AllocError> {
    let mut byte = first;
    for _ in 0..count {
        bytes.push(byte)?;
        byte = byte.wrapping_add(7);
    }
    Ok(())
}

// A part of a message: digits, or `COUNT*FIRST`.
fn put_part(bytes: &mut Vec<u8>, alloc: Global, part: &str) -> Result<(), AllocError> {
    match part.split_once('*') {
        Some((count, first)) => {
            put_counted(bytes, number_of(count), first.parse::<u8>().unwrap_or(0))
        }
        None => bytes.extend_from_slice(&bytes_of(alloc, part)?),
    }
}

fn put_parts(bytes: &mut Vec<u8>, alloc: Global, word: &str) -> Result<(), AllocError> {
    for part in word.split('+') {
        put_part(bytes, alloc, part)?;
    }
    Ok(())
}

/// The bytes of a message's word: digits, or `COUNT*FIRST` of which byte i is (7 i + FIRST) mod 256, joined by `+`.
pub fn message_of(alloc: Global, word: &str) -> Result<Vec<u8>, AllocError> {
    let mut bytes = Vec::new(alloc);
    put_parts(&mut bytes, alloc, word)?;
    Ok(bytes)
}

/// Puts hexadecimal digits, `-` for no bytes.
pub fn push_digits(said: &mut String, bytes: &[u8]) -> Result<(), AllocError> {
    if bytes.is_empty() {
        return said.push_str("-");
    }
    for byte in bytes {
        write!(said, "{byte:02x}")?;
    }
    Ok(())
}

/// The same of bytes that an allocation may have kept from being made.
pub fn push_bytes(
    said: &mut String,
    bytes: Result<wire_bytes::Bytes, AllocError>,
) -> Result<(), AllocError> {
    match bytes {
        Ok(bytes) => push_digits(said, bytes.as_slice()),
        Err(error) => Err(error),
    }
}

/// Puts the digits of bytes, or of many their number and their SHA-256.
pub fn push_many(said: &mut String, bytes: &[u8]) -> Result<(), AllocError> {
    if bytes.len() <= 200 {
        return push_digits(said, bytes);
    }
    write!(said, "{} sha256 ", bytes.len())?;
    push_digits(said, &Sha256::digest(bytes))
}
