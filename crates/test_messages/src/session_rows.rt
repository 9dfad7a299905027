//! What headers, compounds, frames, texts, the messages of a session and its contexts say, and their canonical spelling: the answer
//! to each row of a table.

mod bytes;
mod contexts;
mod messages;
mod stream;

use crate::vectors;
use crate::words::word;
use std::alloc::{AllocError, Global};

/// What is said of bytes by the reader of this word; of contexts, that they are three.
pub fn outcome(said: &mut String, alloc: Global, word: &str, m: &[u8]) -> Result<(), AllocError> {
    match word {
        "header" => bytes::header(said, m),
        "contexts" => contexts::offered(said, alloc, 3, m),
        _ => messages::message(said, alloc, word, m),
    }
}

/// The answer to a row.
pub fn answer(said: &mut String, alloc: Global, words: &[&str]) -> Result<(), AllocError> {
    match word(words, 0) {
        "text" => bytes::text(said, alloc, word(words, 1)),
        "compound" => bytes::compound(said, alloc, word(words, 1)),
        "frame" => stream::framed(said, alloc, word(words, 1)),
        "zeros" => stream::zeros(said, alloc, word(words, 1)),
        "stream" => stream::answers(said, alloc, words),
        "contexts" => contexts::answer(said, alloc, words),
        _ => vectors::answer(said, alloc, "session", words),
    }
}
