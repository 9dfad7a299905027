// `vector MODE KEY NONCE ADDED TEXT TAG`: what a mode of AES makes of bytes of these lengths, and opens again where it sealed them, in
// hexadecimal digits, or its SHA-256 where it is long. Another implementation wrote what is due; the rows of `ccm-example` are SP 800-38C's
// examples 1 to 4, whose bytes count upwards. A mode with `-zeros` has bytes of zero; one with `-through` stands for all lengths of text
// up to the row's, and the SHA-256 of all their results.
use crate::cipher_rows::modes::{Given, aes_with, by_gmac, sealed};
use crate::words::{Fault, Words, kept, push_digits};
use crypto_ciphers::cmac;
use sha2::{Digest, Sha256};
use std::alloc::Global;
use wire_bytes::Bytes;

/// Which numbers a line's bytes are: square * i * i + step * i + first, modulo 256 or 251.
#[derive(Clone, Copy)]
struct Pattern {
    square: u64,
    step: u64,
    first: u64,
    is_prime: bool,
}

fn line(step: u64, first: u64) -> Pattern {
    Pattern {
        square: 0,
        step,
        first,
        is_prime: false,
    }
}

/// What a mode seals.
#[derive(Clone, Copy)]
struct Patterns {
    key: Pattern,
    nonce: Pattern,
    added: Pattern,
    text: Pattern,
}

// What each part of a row is made of: `example` counts upwards, as the examples of SP 800-38C do. In a row of neither kind each part goes by
// another step, so that one taken for another is seen.
fn patterns_of(kind: &str) -> Patterns {
    match kind {
        "example" => Patterns {
            key: line(1, 0x40),
            nonce: line(1, 0x10),
            added: line(1, 0),
            text: line(1, 0x20),
        },
        "zeros" => Patterns {
            key: line(0, 0),
            nonce: line(0, 0),
            added: line(0, 0),
            text: line(0, 0),
        },
        _ => Patterns {
            key: line(7, 3),
            nonce: line(11, 2),
            added: line(3, 9),
            text: Pattern {
                square: 1,
                step: 5,
                first: 1,
                is_prime: true,
            },
        },
    }
}

/// The first bytes of a pattern.
fn bytes_by(alloc: Global, pattern: Pattern, count: u64) -> Result<Vec<u8>, Fault> {
    let mut bytes = Vec::new(alloc);
    for i in 0..count {
        let square = pattern.square.wrapping_mul(i).wrapping_mul(i);
        let line = pattern.step.wrapping_mul(i).wrapping_add(pattern.first);
        let sum = square.wrapping_add(line);
        let sum = if pattern.is_prime { sum % 251 } else { sum };
        bytes.push((sum % 256) as u8)?;
    }
    Ok(bytes)
}

/// Puts what is said of the words behind the first one.
pub fn push_answer(said: &mut String, alloc: Global, words: &mut Words<'_>) -> Result<(), Fault> {
    let mut named = Words::new(words.next());
    let mode = named.until("-");
    let kind = named.rest();
    let patterns = patterns_of(kind);
    let key = bytes_by(alloc, patterns.key, words.number())?;
    let aes = aes_with(&key)?;
    let nonce = bytes_by(alloc, patterns.nonce, words.number())?;
    let added = bytes_by(alloc, patterns.added, words.number())?;
    let text = bytes_by(alloc, patterns.text, words.number())?;
    let tag = words.number() as usize;
    let given = Given {
        mode,
        aes,
        nonce,
        added,
        tag,
    };
    if kind == "through" {
        return push_through(said, alloc, &given, &text);
    }
    let made = made(alloc, &given, &text)?;
    if made.len() < 1000 {
        return Ok(push_digits(said, made.as_slice())?);
    }
    push_hash(said, made.as_slice())
}

fn push_hash(said: &mut String, bytes: &[u8]) -> Result<(), Fault> {
    said.push_str("sha256 ")?;
    Ok(push_digits(said, &Sha256::digest(bytes))?)
}

/// The SHA-256 of what a mode makes of texts of all lengths up to this one's.
fn push_through(
    said: &mut String,
    alloc: Global,
    given: &Given<'_>,
    text: &[u8],
) -> Result<(), Fault> {
    let mut all = Vec::new(alloc);
    for length in 0..=text.len() {
        if let Some(front) = text.get(..length) {
            let made = made(alloc, given, front)?;
            all.extend_from_slice(made.as_slice())?;
        }
    }
    push_hash(said, &all)
}

/// What a mode makes of a text. What it sealed is opened again.
fn made(alloc: Global, given: &Given<'_>, text: &[u8]) -> Result<Bytes, Fault> {
    match given.mode {
        "cmac" => kept(Bytes::from_slice(alloc, &cmac(&given.aes, text))),
        "gmac" => by_gmac(alloc, given, text),
        _ => sealed(alloc, given, text),
    }
}
