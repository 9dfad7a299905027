//! Events of a server, row by row, and what is answered to them. It is a room because the server's rules are compared
//! with rows that were worked by hand. Nothing stands on it.
//!
//! Events of a server, row by row, and what is answered to them. A row is what the server stands on, ` | `, events with `; ` between
//! them, ` = ` and what is answered. Events in front of a ` > ` prepare the others: all of them succeed. The server stands on
//! `new`, or by options and flags on `disk=BYTES`, on a disk whose calls fail as `plan=BYTES` says, with `room=BYTES` for all files,
//! with `sealed` messages, with `any` tokens of a logon, on a `counting` disk, which keeps nothing, or behind LOCKs that it lets wait, `waits`. What each word asks stands in `src`; one that is no number,
//! where one is asked for, is read as 0. Behind ` > cuts ` stands one frame, which is taken cut to each length, each time by a new server.
//! Answers were worked by hand from the public documents and from this project's own rules (`docs/DEFINITIONS.md`); rows of frames were
//! written by tools/frame-rows.py. A row that is answered otherwise is written out.
#![tactic(auto)]

mod around;
mod event_calls;
mod event_server;
mod requests;
mod row;
mod stage;
mod told;
mod words;

ghost use Rattle.std.specs.Prelude.{◌≡◌, OnOk};

use event_calls::{Fault, kept};
use std::alloc::Global;
use std::io;

// An error where what was said isn't what is due.
fn check_due(said: &str, due: &str) -> Result<(), Fault>
    ensures { OnOk result (said.now ≡ due.now) }
{
    if said == due {
        Ok(())
    } else {
        Err(Fault::Other)
    }
}

// Puts what is answered to a row, or why it can't be run; an error where that isn't what is due.
fn check_row(said: &mut String, alloc: Global, given: &str, due: &str) -> Result<(), Fault> {
    said.clear();
    if let Err(fault) = row::push_answer(said, alloc, given) {
        kept(said.push_str(fault.word()))?;
    }
    check_due(said.as_str(), due)
}

// How many rows of the standard input are answered as they say; the others are written out.
fn right_rows(rt: &HostRuntime) -> io::Result<u64> {
    let mut right: u64 = 0;
    let mut said = String::new(rt.alloc());
    for line in rt.lines(rt.alloc()) {
        let line = line?;
        if !line.as_str().starts_with("#") {
            let (given, due) = line
                .as_str()
                .split_once(" = ")
                .unwrap_or((line.as_str(), ""));
            match check_row(&mut said, rt.alloc(), given, due) {
                Ok(()) => right = right.saturating_add(1),
                Err(_) => println!(rt; "{given} = {said}")?,
            }
        }
    }
    Ok(right)
}

fn main(rt: HostRuntime) -> io::Result<()> {
    let right = right_rows(&rt)?;
    println!(rt; "{right} rows are answered as they say")
}
