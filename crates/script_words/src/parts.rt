// The parts of a line.
ghost use Rattle.std.specs.Prelude.{◌≡◌, ◌≤◌, IfOk, MatchOption, true, false, is_some, length};
ghost use Rattle.std.specs.Str.{bytes_eq, is_utf8};
ghost use Rattle.script_words.specs.Outcome.{OutcomeGives};
ghost use Rattle.script_words.specs.Parts as parts;

use crate::numbers::number_to;
use crate::pieces::Pieces;
use crate::values::{Code, Fault};
use hex::{FromHex, FromHexError};
use std::alloc::Global;
use store_files::units;
use wire_bytes::{Bytes, Text};

pub(crate) type Reading<T> = Result<T, Fault<Code>>;

/// The most operations of a script.
const MOST_OPERATIONS: u64 = 1_048_576;

const MOST_UNITS: u64 = 1_024;

const MOST_CHARACTERS: u64 = 256;

pub(crate) fn word<'a>(line: &mut Pieces<'a>) -> Reading<&'a [u8]>
    ensures { OutcomeGives (λ w. (w.now, line.new)) result (parts.word line.old) }
{
    match line.next() {
        Some(word) if !word.is_empty() => Ok(word),
        _ => Err(Fault::Refused(Code::BadLine)),
    }
}

pub(crate) fn is(word: &[u8], text: &str) -> bool
    ensures { result ≡ bytes_eq word.now text.now }
{
    word == text.as_bytes()
}

#[tactic(auto, unfolding(crate::specs::Parts::number))]
pub(crate) fn number(limit: u64, line: &mut Pieces<'_>) -> Reading<u64>
    ensures bound { IfOk result (λ n. n ≤ limit) }
    ensures value { OutcomeGives (λ n. (n, line.new)) result (parts.number limit line.old) }
{
    let word = word(line)?;
    match number_to(limit, word) {
        Some(number) => Ok(number),
        None => Err(Fault::Refused(Code::BadLine)),
    }
}

/// The number of an earlier create.
#[tactic(auto, unfolding(crate::specs::Parts::create))]
pub(crate) fn create(creates: &[bool], line: &mut Pieces<'_>) -> Reading<u32>
    requires { length creates.now ≤ 1048576 }
    ensures { OutcomeGives (λ n. (n, line.new)) result (parts.create creates.now line.old) }
{
    let word = word(line)?;
    match number_to(MOST_OPERATIONS, word) {
        Some(number) if is_create(creates, number) => Ok(number as u32),
        _ => Err(Fault::Refused(Code::BadLine)),
    }
}

// Whether the operation of this number, from 1, is one so far and is a create.
fn is_create(creates: &[bool], number: u64) -> bool
    ensures { result ≡ is_some (parts.create_named creates.now number) }
{
    if number == 0 || number > creates.len() as u64 {
        return false;
    }
    creates[(number - 1) as usize]
}

#[tactic(auto, unfolding(crate::specs::Parts::bytes))]
pub(crate) fn bytes(alloc: Global, limit: usize, line: &mut Pieces<'_>) -> Reading<Bytes>
    ensures { OutcomeGives (λ bytes. (bytes, line.new)) result (parts.bytes limit line.old) }
{
    let text = word(line)?;
    bytes_of(alloc, limit, text)
}

fn bytes_of(alloc: Global, limit: usize, text: &[u8]) -> Reading<Bytes>
    ensures { OutcomeGives (λ bytes. bytes) result (parts.bytes_of limit text.now) }
{
    if is(text, "-") {
        return Ok(Bytes::new(alloc));
    }
    match hex::decode(alloc, text) {
        Ok(bytes) if bytes.len() <= limit => Ok(Bytes::from_vec(bytes)),
        Ok(_) => Err(Fault::Refused(Code::TooLong)),
        Err(FromHexError::OutOfMemory) => Err(Fault::Memory),
        Err(_) => Err(Fault::Refused(Code::BadLine)),
    }
}

/// A byte of exactly two digits.
#[tactic(auto, unfolding(crate::specs::Parts::byte))]
pub(crate) fn byte(line: &mut Pieces<'_>) -> Reading<u8>
    ensures { OutcomeGives (λ b. (b, line.new)) result (parts.byte line.old) }
{
    let text = word(line)?;
    match <[u8; 1]>::from_hex(text) {
        Ok(byte) => Ok(byte[0]),
        Err(_) => Err(Fault::Refused(Code::BadLine)),
    }
}

#[tactic(auto, unfolding(crate::specs::Parts::path))]
pub(crate) fn path(alloc: Global, line: &mut Pieces<'_>) -> Reading<Text>
    ensures { OutcomeGives (λ path. (path, line.new)) result (parts.path line.old) }
{
    let word = word(line)?;
    path_of(alloc, word)
}

fn path_of(alloc: Global, word: &[u8]) -> Reading<Text>
    ensures { OutcomeGives (λ path. path) result (parts.path_of word.now) }
{
    let Some(text) = text_in(word) else {
        return Err(Fault::Refused(Code::BadLine));
    };
    if units(word) > MOST_UNITS {
        return Err(Fault::Refused(Code::TooLong));
    }
    let path = Text::from_str(alloc, text)?;
    Ok(path)
}

/// A text of at most 256 characters.
pub(crate) fn short_text(alloc: Global, word: &[u8]) -> Reading<Text>
    ensures { OutcomeGives (λ text. text) result (parts.short_text word.now) }
{
    let Some(text) = text_in(word) else {
        return Err(Fault::Refused(Code::BadLine));
    };
    if characters(word) > MOST_CHARACTERS {
        return Err(Fault::Refused(Code::TooLong));
    }
    let short = Text::from_str(alloc, text)?;
    Ok(short)
}

/// A word that is UTF-8.
pub(crate) fn text_in(word: &[u8]) -> Option<&str>
    ensures { MatchOption result (is_utf8 word.now ≡ false) (λ text. (is_utf8 word.now ≡ true) × (text.now ≡ word.now)) }
{
    match std::str::from_utf8(word) {
        Ok(text) => Some(text),
        Err(_) => None,
    }
}

#[tactic(auto, unfolding(crate::specs::Parts::characters))]
fn characters(text: &[u8]) -> u64
    ensures { result ≡ parts.characters text.now }
{
    let mut count = 0;
    for byte in text {
        count += begins(*byte);
    }
    count
}

#[tactic(auto, unfolding(crate::specs::Parts::begins_character))]
fn begins(byte: u8) -> u64
    ensures is { result ≡ parts.begins_character byte }
    ensures few { result ≤ 1 }
{
    if byte >= 128 && byte <= 191 { 0 } else { 1 }
}

pub(crate) fn is_ascii(text: &[u8]) -> bool
    ensures { result ≡ parts.is_ascii text.now }
{
    text.iter().all(|byte| *byte < 128)
}
