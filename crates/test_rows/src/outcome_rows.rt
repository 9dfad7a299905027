//! The runs and the refused lines of a table, and scripts and settings that are read. A row is a kind, `|` and values: of `run` the text of
//! these values is told, of `line` that of a refused line, of `has` whether an operation that settled so has an order, of `script COMMAND`
//! what the command reads of a text, or the line that is refused. What is due was worked by hand.
mod run;
mod script_rows;

use crate::words::{Fault, Words};
use client_values::OpKind;
use script_words::{Code, Refusal, has_order, refusal_line};
use std::alloc::{AllocError, Global};
use wire_bytes::Text;

/// Puts what is answered to a row.
pub fn push_answer(said: &mut String, alloc: Global, words: &mut Words<'_>) -> Result<(), Fault> {
    let mut kind = Words::new(words.until("|"));
    match kind.next() {
        "script" => script_rows::push_read(said, alloc, kind.next(), words.rest()),
        "run" => run::push_text(said, alloc, words.rest()),
        "line" => push_line(said, alloc, words),
        "has" => push_told(said, alloc, words),
        _ => Err(Fault::Other("an unknown kind of row")),
    }
}

/// Puts a text with its line ends written out.
fn push_lines(said: &mut String, text: &str) -> Result<(), AllocError> {
    let mut is_first = true;
    for line in text.split("\n") {
        if !is_first {
            said.push_str("\\n")?;
        }
        said.push_str(line)?;
        is_first = false;
    }
    Ok(())
}

// `NUMBER CODE`, with a connection where the code has one.
fn push_line(said: &mut String, alloc: Global, words: &mut Words<'_>) -> Result<(), Fault> {
    let line = words.number();
    let code = match words.next() {
        "bad" => Code::BadLine,
        "long" => Code::TooLong,
        "channel" => Code::NoChannel(words.small()),
        "nothing" => Code::NothingThere(words.small()),
        _ => Code::InUse(words.small()),
    };
    let text = refusal_line(alloc, &Refusal { line, code })?;
    Ok(push_lines(said, text.as_str())?)
}

// An operation, `create SHARE` or `list C`, and how it settled.
fn push_told(said: &mut String, alloc: Global, words: &mut Words<'_>) -> Result<(), Fault> {
    let op = op_in(alloc, &mut Words::new(words.until("; ")));
    let outcome = run::outcome_in(alloc, words.next(), words)?;
    let has = has_order(&op, &outcome);
    Ok(said.push_str(if has { "true" } else { "false" })?)
}

fn op_in(alloc: Global, words: &mut Words<'_>) -> OpKind {
    if words.says("create") {
        return OpKind::Create {
            path: Text::new(alloc),
            access: 0x81,
            share: words.small(),
            disposition: 3,
            persist: false,
            directory: false,
        };
    }
    OpKind::List {
        create: words.small(),
    }
}
