//! What the messages of CREATE to LOCK and create contexts say, and their canonical spelling: the answer to each row of a table.

mod chains;
mod locks;
mod messages;

use crate::vectors;
use crate::words::word;
use std::alloc::{AllocError, Global};

/// What is said of bytes by the reader of this word.
pub fn outcome(said: &mut String, alloc: Global, word: &str, m: &[u8]) -> Result<(), AllocError> {
    match word {
        "chain" => chains::chain(said, alloc, m),
        "answers" => chains::answers(said, alloc, m),
        _ => messages::message(said, alloc, word, m),
    }
}

/// The answer to a row.
pub fn answer(said: &mut String, alloc: Global, words: &[&str]) -> Result<(), AllocError> {
    match word(words, 0) {
        "elements" => locks::elements(said, alloc, word(words, 1)),
        _ => vectors::answer(said, alloc, "file", words),
    }
}
