//! What IOCTL, QUERY_DIRECTORY, QUERY_INFO, SET_INFO, the information classes and listings say, and their canonical spelling: the
//! answer to each row of a table.

mod classes;
mod listing;
mod messages;

use crate::vectors;
use crate::words::word;
use std::alloc::{AllocError, Global};

/// What is said of bytes by the reader of this word.
pub fn outcome(said: &mut String, alloc: Global, word: &str, m: &[u8]) -> Result<(), AllocError> {
    if word.ends_with("request") || word.ends_with("response") {
        messages::message(said, alloc, word, m)
    } else {
        classes::class(said, alloc, word, m)
    }
}

/// The answer to a row.
pub fn answer(said: &mut String, alloc: Global, words: &[&str]) -> Result<(), AllocError> {
    match word(words, 0) {
        "listing" => listing::answer(said, alloc, words),
        _ => vectors::answer(said, alloc, "info", words),
    }
}
