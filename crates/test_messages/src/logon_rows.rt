//! The answers to rows of the program `test_messages`: tokens read and written, keys derived, messages signed and sealed.

mod keys;
mod ntlm;
mod sealing;
mod spnego;

use crate::vectors;
use crate::words::word;
use std::alloc::{AllocError, Global};

/// What is said of a token by the reader of this word.
pub fn outcome(said: &mut String, alloc: Global, word: &str, m: &[u8]) -> Result<(), AllocError> {
    match word {
        "init" => spnego::init(said, alloc, m),
        "resp" => spnego::resp(said, alloc, m),
        _ => ntlm::message(said, alloc, word, m),
    }
}

// The answer to a row of what isn't only read.
fn made(said: &mut String, alloc: Global, words: &[&str]) -> Result<(), AllocError> {
    let name = word(words, 0);
    said.push_str(name)?;
    said.push_str(": ")?;
    match name {
        "seal" => sealing::sealed(said, alloc, words),
        "unseal" => sealing::opened(said, alloc, words),
        "challenge" | "check" | "answer" | "first" => ntlm::exchange(said, alloc, words),
        "ntowf" | "proof" | "base_key" | "mic" | "list_mic" | "rc4" => {
            ntlm::formula(said, alloc, words)
        }
        _ => keys::answer(said, alloc, words),
    }
}

/// The answer to a row: its word, and what is said of the words behind it.
pub fn answer(said: &mut String, alloc: Global, words: &[&str]) -> Result<(), AllocError> {
    match word(words, 0) {
        "init" | "resp" | "type1" | "type2" | "type3" | "cuts" | "zeroed" | "ones" | "turned" => {
            vectors::answer(said, alloc, "logon", words)
        }
        _ => made(said, alloc, words),
    }
}
