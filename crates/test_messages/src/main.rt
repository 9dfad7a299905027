//! Tables of messages, contexts, classes, records and logons, read and written again. It is a room because its bytes
//! were laid out by another implementation. Nothing stands on it.
//!
//! Reads headers, frames, texts, messages, contexts, classes, listings and the journal's records, and writes again what they hold; answers
//! tokens, keys, signatures and sealed messages. A row begins with the name of its table; one that begins with `#` stands in the output as
//! it is. The rows and the expected output were written by tools/wire-vectors.py, tools/session-vectors.py and tools/cut-messages.py.
#![tactic(auto)]

/// What a reader says of bytes, and the writer of the value; where a writer needs something of the value, its name and that.
macro_rules! both_ways {
    ($said:ident, $alloc:ident, $bytes:ident, $read:ident, $write:ident) => {
        match $read($bytes) {
            Ok(value) => told($said, &value, $write($alloc, &value)),
            Err(refusal) => refused($said, &refusal),
        }
    };
    ($said:ident, $alloc:ident, $bytes:ident, $read:ident, $write:ident, $value:ident => $fits:expr) => {
        match $read($bytes) {
            Ok($value) => {
                if $fits {
                    told($said, &$value, $write($alloc, &$value))
                } else {
                    unwritten($said)
                }
            }
            Err(refusal) => refused($said, &refusal),
        }
    };
}

mod file_rows;
mod info_rows;
mod logon_rows;
mod record_rows;
mod session_rows;
mod vectors;
mod words;

use std::alloc::{AllocError, Global};
use std::io;
use words::word;

fn answer_to(said: &mut String, alloc: Global, words: &[&str]) -> Result<(), AllocError> {
    let row = words.get(1..).unwrap_or(&[]);
    match word(words, 0) {
        "session" => session_rows::answer(said, alloc, row),
        "file" => file_rows::answer(said, alloc, row),
        "info" => info_rows::answer(said, alloc, row),
        "record" => record_rows::answer(said, alloc, row),
        "logon" => logon_rows::answer(said, alloc, row),
        _ => said.push_str("an unknown table"),
    }
}

fn answer(said: &mut String, alloc: Global, line: &str) -> Result<(), AllocError> {
    if line.starts_with('#') {
        return said.push_str(line);
    }
    let words: Vec<&str> = line.split(' ').collect(alloc)?;
    answer_to(said, alloc, &words)
}

fn tell(rt: &HostRuntime, line: &str) -> io::Result<()> {
    let mut said = String::new(rt.alloc());
    answer(&mut said, rt.alloc(), line)?;
    println!(rt; "{said}")
}

fn main(rt: HostRuntime) -> io::Result<()> {
    for line in rt.lines(rt.alloc()) {
        let line = line?;
        tell(&rt, line.as_str())?;
    }
    Ok(())
}
