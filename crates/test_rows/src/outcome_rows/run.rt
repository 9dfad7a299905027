// The values of a run, one after the other with `; ` between them, and its text.
use crate::outcome_rows::push_lines;
use crate::values::{refusal_in, why_in};
use crate::words::{Fault, Words, push_unescaped};
use client_values::{Outcome, RefusedDialog, TextList};
use script_words::{CreateOrder, NumberList, run_text};
use std::alloc::Global;
use store_files::StoredFile;
use wire_bytes::{Bytes, Text};

#[derive(Drop)]
struct Run {
    dialogs: Vec<RefusedDialog>,
    settled: Vec<Outcome>,
    orders: Vec<CreateOrder>,
    files: Vec<StoredFile>,
}

/// Puts the text of a run.
pub fn push_text(said: &mut String, alloc: Global, values: &str) -> Result<(), Fault> {
    let mut run = Run {
        dialogs: Vec::new(alloc),
        settled: Vec::new(alloc),
        orders: Vec::new(alloc),
        files: Vec::new(alloc),
    };
    take_all(&mut run, alloc, values)?;
    push_run(said, alloc, &run)
}

fn take_all(run: &mut Run, alloc: Global, values: &str) -> Result<(), Fault> {
    for value in values.split("; ") {
        take(run, alloc, value)?;
    }
    Ok(())
}

fn push_run(said: &mut String, alloc: Global, run: &Run) -> Result<(), Fault> {
    let text = run_text(
        alloc,
        run.dialogs.as_slice(),
        run.settled.as_slice(),
        run.orders.as_slice(),
        run.files.as_slice(),
    )?;
    Ok(push_lines(said, text.as_str())?)
}

// Takes a value: `dialog K` and why, `order C NUMBERS`, `file PATH BYTES`, or how the next operation settled. No words are none.
fn take(run: &mut Run, alloc: Global, value: &str) -> Result<(), Fault> {
    let mut words = Words::new(value);
    match words.next() {
        "" => Ok(()),
        "dialog" => Ok(
            run.dialogs.push(RefusedDialog {
                connection: words.small(),
                refusal: refusal_in(&mut words),
            })?,
        ),
        "order" => take_order(run, alloc, &mut words),
        "file" => take_file(run, alloc, &mut words),
        name => take_outcome(run, alloc, name, &mut words),
    }
}

fn take_outcome(
    run: &mut Run,
    alloc: Global,
    name: &str,
    words: &mut Words<'_>,
) -> Result<(), Fault> {
    let outcome = outcome_in(alloc, name, words)?;
    Ok(run.settled.push(outcome)?)
}

// Numbers are divided by commas; no word is none.
fn take_order(run: &mut Run, alloc: Global, words: &mut Words<'_>) -> Result<(), Fault> {
    let create = words.small();
    let mut numbers = NumberList::new(alloc);
    for word in words.next().split(",") {
        if !word.is_empty() {
            numbers.push(Words::new(word).small())?;
        }
    }
    Ok(run.orders.push(CreateOrder { create, numbers })?)
}

// Bytes are written out as in texts; no word is none.
fn take_file(run: &mut Run, alloc: Global, words: &mut Words<'_>) -> Result<(), Fault> {
    let path = words.text(alloc)?;
    let mut bytes = Vec::new(alloc);
    push_unescaped(&mut bytes, alloc, words.next())?;
    Ok(
        run.files.push(StoredFile {
            path,
            bytes: Bytes::from_vec(bytes),
        })?,
    )
}

/// How an operation settled: `refused STATUS`, `noslot C`, `noopen C`, `unknown` and why, or what it was answered.
pub fn outcome_in(alloc: Global, name: &str, words: &mut Words<'_>) -> Result<Outcome, Fault> {
    match name {
        "refused" => Ok(Outcome::Refused(words.status())),
        "noslot" => Ok(Outcome::NoSlot(words.small())),
        "noopen" => Ok(Outcome::NoOpen(words.small())),
        "unknown" => Ok(Outcome::Unknown(why_in(words))),
        "done" => Ok(Outcome::Done),
        "action" => Ok(Outcome::Action(words.small())),
        "count" => Ok(Outcome::Count(words.small())),
        "length" => Ok(Outcome::Length(words.number())),
        "content" => content_in(alloc, words),
        "names" => names_in(alloc, words.next()),
        _ => Err(Fault::Other("an unknown value")),
    }
}

fn content_in(alloc: Global, words: &mut Words<'_>) -> Result<Outcome, Fault> {
    let bytes = words.bytes(alloc)?;
    Ok(Outcome::Content(Bytes::from_vec(bytes)))
}

// Names divided by commas, or no word for none.
fn names_in(alloc: Global, list: &str) -> Result<Outcome, Fault> {
    let mut names = TextList::new(alloc);
    for name in list.split(",") {
        if !name.is_empty() {
            names.push(Text::from_str(alloc, name)?)?;
        }
    }
    Ok(Outcome::Names(names))
}
