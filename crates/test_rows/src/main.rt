//! Tables of ciphers, commands, journals, outcomes, files, numbers and a client's events, row by row. It is one room because one program reads
//! them all. Nothing stands on it.
//!
//! A row is the name of its table, what is given, ` = ` and what is due. A row that is answered otherwise is written out with its answer.
//! Rows that begin with `#` say where the next ones come from. The bytes of commands were made by Python's `struct.pack` from the layouts
//! of MS-SMB2 2.2 and MS-FSCC 2.4 and 2.5.
#![tactic(auto)]

mod cipher_rows;
mod client_scripts;
mod command_rows;
mod journal_rows;
mod number_rows;
mod outcome_rows;
mod store_calls;
mod values;
mod words;

ghost use Rattle.std.specs.Prelude.{◌≡◌, OnOk};

use client_events::Played;
use client_scripts::{Plays, Script};
use std::io;
use store_files::Tree;
use words::{Fault, Words};

/// What the rows of a table leave for the next ones.
#[derive(Drop)]
struct Tables<P: Plays> {
    client: Script<P>,
    files: Tree,
}

// Puts what is answered to a row. One program has all tables, because its proof and its two builds are paid once.
fn push_answer<P: Plays>(
    said: &mut String,
    rt: &HostRuntime,
    tables: &mut Tables<P>,
    given: &str,
) -> Result<(), Fault> {
    let mut words = Words::new(given);
    match words.next() {
        "cipher" => cipher_rows::push_answer(said, rt.alloc(), &mut words),
        "client" => client_scripts::push_answer(said, rt.alloc(), &mut tables.client, &mut words),
        "command" => command_rows::push_answer(said, rt.alloc(), &mut words),
        "file" => store_calls::push_answer(said, rt.alloc(), &mut tables.files, &mut words),
        "journal" => journal_rows::push_answer(said, rt, &mut words),
        "number" => number_rows::push_answer(said, rt.alloc(), &mut words),
        "outcome" => outcome_rows::push_answer(said, rt.alloc(), &mut words),
        _ => Err(Fault::Other("an unknown table")),
    }
}

// An error where what was said isn't what is due.
fn check_due(said: &str, due: &str) -> Result<(), Fault>
    ensures { OnOk result (said.now ≡ due.now) }
{
    if said == due {
        Ok(())
    } else {
        Err(Fault::Other("another than is due"))
    }
}

// Puts what is answered to a row, or why it isn't; an error where that isn't what is due.
fn check_row<P: Plays>(
    said: &mut String,
    rt: &HostRuntime,
    tables: &mut Tables<P>,
    given: &str,
    due: &str,
) -> Result<(), Fault> {
    said.clear();
    if let Err(fault) = push_answer(said, rt, tables, given) {
        said.push_str(fault.word())?;
    }
    check_due(said.as_str(), due)
}

// How many rows of the standard input are answered as they say; the others are written out with their answers.
fn right_rows<P: Plays>(rt: &HostRuntime) -> io::Result<u64> {
    let mut right: u64 = 0;
    let mut said = String::new(rt.alloc());
    let mut tables = Tables::<P> {
        client: Script::new(rt.alloc()),
        files: Tree::new(rt.alloc(), 0),
    };
    for line in rt.lines(rt.alloc()) {
        let line = line?;
        if !line.as_str().starts_with("#") {
            let (given, due) = line
                .as_str()
                .split_once(" = ")
                .unwrap_or((line.as_str(), ""));
            match check_row(&mut said, rt, &mut tables, given, due) {
                Ok(()) => right = right.saturating_add(1),
                Err(_) => println!(rt; "{given} = {said}")?,
            }
        }
    }
    Ok(right)
}

fn main(rt: HostRuntime) -> io::Result<()> {
    let right = right_rows::<Played>(&rt)?;
    println!(rt; "{right} rows are answered as they say")
}
