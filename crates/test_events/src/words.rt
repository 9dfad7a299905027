// Words of an event: those by their place, and behind them options, `KEY=VALUE`, and flags. One that is missing is empty, and one that
// is no number is read as 0.
use crate::event_calls::{Fault, kept};
use std::alloc::{AllocError, Global};

pub fn word<'a>(words: &[&'a str], i: usize) -> &'a str {
    words.get(i).copied().unwrap_or("")
}

pub fn has(words: &[&str], flag: &str) -> bool {
    for word in words {
        if *word == flag {
            return true;
        }
    }
    false
}

/// The value of an option, where it is there.
pub fn option<'a>(words: &[&'a str], key: &str) -> Option<&'a str> {
    for word in words {
        if let Some((name, value)) = word.split_once("=")
            && name == key
        {
            return Some(value);
        }
    }
    None
}

pub fn number_of(word: &str) -> u64 {
    word.parse::<u64>().unwrap_or(0)
}

pub fn number(words: &[&str], i: usize) -> u64 {
    number_of(word(words, i))
}

pub fn small(words: &[&str], i: usize) -> u32 {
    (number(words, i) & 0xffff_ffff) as u32
}

pub fn tiny(words: &[&str], i: usize) -> u8 {
    (number(words, i) & 0xff) as u8
}

/// A number of hexadecimal digits.
pub fn coded(digits: &str) -> u32 {
    u32::from_str_radix(digits, 16).unwrap_or(0)
}

/// An option's number or id, or another one where it isn't there.
pub fn number_or(words: &[&str], key: &str, otherwise: u64) -> u64 {
    match option(words, key) {
        Some(value) => id_of(value),
        None => otherwise,
    }
}

pub fn small_or(words: &[&str], key: &str, otherwise: u64) -> u32 {
    (number_or(words, key, otherwise) & 0xffff_ffff) as u32
}

pub fn short_or(words: &[&str], key: &str, otherwise: u64) -> u16 {
    (number_or(words, key, otherwise) & 0xffff) as u16
}

/// An id: `EPOCH.COUNTER`, which stands for the epoch times 2^32 and the counter, or a plain number.
pub fn id_of(word: &str) -> u64 {
    match word.split_once(".") {
        Some((epoch, counter)) => {
            let epoch = number_of(epoch) & 0xffff_ffff;
            (epoch << 32) | (number_of(counter) & 0xffff_ffff)
        }
        None => number_of(word),
    }
}

pub fn id(words: &[&str], i: usize) -> u64 {
    id_of(word(words, i))
}

/// `-` is the empty path, `/` a space, and `COUNT*TEXT` so many of these.
pub fn path(alloc: Global, word: &str) -> Result<String, AllocError> {
    let (count, piece) = word.split_once("*").unwrap_or(("", word));
    let count = number_of(count);
    if count > 0 {
        return repeated(alloc, piece, count);
    }
    if word == "-" {
        return Ok(String::new(alloc));
    }
    word.replace(alloc, "/", " ")
}

fn repeated(alloc: Global, piece: &str, count: u64) -> Result<String, AllocError> {
    let mut text = String::new(alloc);
    for _ in 0..count {
        text.push_str(piece)?;
    }
    Ok(text)
}

/// Hexadecimal digits, `-` for none, or `COUNT*BYTE` for so many of these.
pub fn payload(alloc: Global, word: &str) -> Result<Vec<u8>, Fault> {
    if let Some((count, byte)) = word.split_once("*") {
        let byte = (coded(byte) & 0xff) as u8;
        let count = number_of(count);
        return kept(vec![in alloc; byte; count as usize]);
    }
    let digits = if word == "-" { "" } else { word };
    match hex::decode(alloc, digits) {
        Ok(bytes) => Ok(bytes),
        Err(_) => Err(Fault::Other),
    }
}
