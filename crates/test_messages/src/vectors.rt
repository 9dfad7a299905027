//! Bytes that are read, and written again. A row is a word and the hexadecimal digits of bytes, which stand behind a header of zeros where
//! the word is a message's; a number behind them cuts the bytes. The answer has the value that a reader gives and behind a line end its
//! canonical spelling, or the refusal. A row that begins with `cuts` asks for the outcome at each length, one that begins with `zeroed`,
//! `ones` or `turned` for that where each byte becomes 0, ff or its complement, and one that begins with `only` for the value alone.
use crate::words::{bytes_in, push_bytes, push_digits, word};
use crate::{file_rows, info_rows, logon_rows, record_rows, session_rows};
use sha2::{Digest, Sha256};
use std::alloc::{AllocError, Global};
use std::fmt::{Debug, Write};
use wire_bytes::Bytes;

/// Puts a value and its spelling.
pub fn told<T: Debug>(
    said: &mut String,
    value: &T,
    spelling: Result<Bytes, AllocError>,
) -> Result<(), AllocError> {
    write!(said, "{value:?}\n  ")?;
    push_bytes(said, spelling)
}

/// Puts why there is no value.
pub fn refused<E: Debug>(said: &mut String, refusal: &E) -> Result<(), AllocError> {
    write!(said, "{refusal:?}")
}

/// Puts what stands in place of a spelling that no writer gives.
pub fn unwritten(said: &mut String) -> Result<(), AllocError> {
    said.push_str("a value that cannot be written")
}

// Whose reader is asked: the table and the word of it.
#[derive(Clone, Copy)]
struct Reader<'a> {
    alloc: Global,
    table: &'a str,
    word: &'a str,
}

// What the reader of a word says of bytes.
fn outcome(said: &mut String, reader: &Reader<'_>, bytes: &[u8]) -> Result<(), AllocError> {
    let (alloc, word) = (reader.alloc, reader.word);
    match reader.table {
        "session" => session_rows::outcome(said, alloc, word, bytes),
        "file" => file_rows::outcome(said, alloc, word, bytes),
        "info" => info_rows::outcome(said, alloc, word, bytes),
        "logon" => logon_rows::outcome(said, alloc, word, bytes),
        _ => record_rows::outcome(said, alloc, bytes),
    }
}

fn front(bytes: &[u8], count: usize) -> &[u8] {
    if count < bytes.len() {
        &bytes[..count]
    } else {
        bytes
    }
}

// Puts the bytes cut to a length, or changed at this place.
fn put_altered(
    altered: &mut Vec<u8>,
    form: &str,
    bytes: &[u8],
    place: usize,
) -> Result<(), AllocError> {
    altered.clear();
    if form == "cuts" {
        return altered.extend_from_slice(front(bytes, place));
    }
    altered.extend_from_slice(bytes)?;
    if let Some(byte) = altered.get_mut(place) {
        *byte = match form {
            "zeroed" => 0,
            "ones" => 0xff,
            _ => *byte ^ 0xff,
        };
    }
    Ok(())
}

// Tells an outcome that is another than the last one.
fn push_change(
    said: &mut String,
    last: &mut String,
    outcome: &str,
    place: usize,
) -> Result<(), AllocError> {
    let told = if outcome.contains('\n') {
        "read"
    } else {
        outcome
    };
    if told == last.as_str() {
        return Ok(());
    }
    let comma = if place == 0 { "" } else { "," };
    write!(said, "{comma} {place} {told}")?;
    last.clear();
    last.push_str(told)
}

/// What was said of bytes that were altered at one place after the other: the last outcome, the one of now, and all of them, each with a
/// line end.
#[derive(Drop)]
struct Outcomes {
    last: String,
    now: String,
    all: Sha256,
}

// The places from which bytes that are altered there have another outcome. Functions with loops own no text, because a text that is let go
// at each `?` of a loop costs the proof most.
fn push_places(
    said: &mut String,
    outcomes: &mut Outcomes,
    altered: &mut Vec<u8>,
    reader: &Reader<'_>,
    form: &str,
    bytes: &[u8],
) -> Result<(), AllocError> {
    for place in 0..=bytes.len() {
        put_altered(altered, form, bytes, place)?;
        outcomes.now.clear();
        outcome(&mut outcomes.now, reader, altered.as_slice())?;
        outcomes.all.update(outcomes.now.as_bytes());
        outcomes.all.update(b"\n".as_slice());
        push_change(said, &mut outcomes.last, outcomes.now.as_str(), place)?;
    }
    Ok(())
}

// The same, and behind changes the SHA-256 of all outcomes.
fn altered(
    said: &mut String,
    reader: &Reader<'_>,
    form: &str,
    bytes: &[u8],
) -> Result<(), AllocError> {
    let alloc = reader.alloc;
    let mut outcomes = Outcomes {
        last: String::new(alloc),
        now: String::new(alloc),
        all: Sha256::new(),
    };
    let mut altered = Vec::new(alloc);
    push_places(said, &mut outcomes, &mut altered, reader, form, bytes)?;
    if form == "cuts" {
        return Ok(());
    }
    said.push_str("; ")?;
    push_digits(said, &outcomes.all.finalize())
}

// The value alone, or the refusal.
fn only(said: &mut String, reader: &Reader<'_>, bytes: &[u8]) -> Result<(), AllocError> {
    let mut whole = String::new(reader.alloc);
    outcome(&mut whole, reader, bytes)?;
    match whole.as_str().split_once('\n') {
        Some((value, _spelling)) => said.push_str(value),
        None => said.push_str(whole.as_str()),
    }
}

// The bytes of the digits of the second word, behind a header where the first one is a message's.
fn whole(alloc: Global, words: &[&str]) -> Result<Vec<u8>, AllocError> {
    let body = bytes_in(alloc, words, 1)?;
    let name = word(words, 0);
    if !name.ends_with("request") && !name.ends_with("response") {
        return Ok(body);
    }
    let mut message = Vec::from_slice(alloc, &[0; 64])?;
    message.extend_from_slice(&body)?;
    Ok(message)
}

// What is said of the bytes of a row, which begins with their word.
fn all(
    said: &mut String,
    alloc: Global,
    table: &str,
    form: &str,
    words: &[&str],
) -> Result<(), AllocError> {
    let reader = Reader {
        alloc,
        table,
        word: word(words, 0),
    };
    let bytes = whole(alloc, words)?;
    match form {
        "cuts" | "zeroed" | "ones" | "turned" => altered(said, &reader, form, &bytes),
        "only" => only(said, &reader, &bytes),
        _ => {
            let length = word(words, 2).parse::<usize>().unwrap_or(bytes.len());
            outcome(said, &reader, front(&bytes, length))
        }
    }
}

/// The answer to a row of a table.
pub fn answer(
    said: &mut String,
    alloc: Global,
    table: &str,
    words: &[&str],
) -> Result<(), AllocError> {
    let form = word(words, 0);
    let behind = words.get(1..).unwrap_or(&[]);
    match form {
        "cuts" | "zeroed" | "ones" | "turned" => write!(said, "{form} {}:", word(behind, 0))?,
        "only" => write!(said, "{}: ", word(behind, 0))?,
        _ => {
            write!(said, "{form}: ")?;
            return all(said, alloc, table, "", words);
        }
    }
    all(said, alloc, table, form, behind)
}
