//! A client's dialog beside a logon by another implementation, from NEGOTIATE to the response to TREE_CONNECT, which is sealed. A row
//! is the frame that the dialog hears, ` = ` and the message that it then says, in digits; the first one is `start`, the last one
//! makes a channel ready.
ghost use Rattle.std.specs.Prelude.{IfOk};
ghost use Rattle.client_ends.specs.dialog_requests.Dialogs.{CanOffer};

use crate::frames::push_digits;
use client_ends::dialog_calls::hear;
use client_ends::{ClientConfig, Dialog, Fresh, Heard, start};
use std::alloc::{AllocError, Global};
use std::fmt::Write;
use std::io;
use wire_bytes::{Numbers, Text};

fn config(alloc: Global) -> Result<ClientConfig, AllocError>
    ensures { IfOk result (λ c. CanOffer c) }
{
    let ciphers = Numbers::from_slice(alloc, &[2, 1, 4, 3])?;
    let signings = Numbers::from_slice(alloc, &[2, 1])?;
    Ok(ClientConfig {
        user: Text::from_str(alloc, "User")?,
        password: Text::from_str(alloc, "Password")?,
        share: Text::from_str(alloc, "data")?,
        ciphers,
        signings,
        guid: [
            16, 17, 18, 19, 20, 21, 22, 23, 24, 25, 26, 27, 28, 29, 30, 31,
        ],
    })
}

fn fresh() -> Fresh {
    Fresh {
        salt: [
            191, 137, 72, 218, 133, 193, 102, 47, 105, 100, 172, 72, 41, 92, 42, 75, 34, 109, 50,
            153, 36, 186, 23, 241, 63, 22, 204, 39, 235, 51, 120, 4,
        ],
        challenge: [198, 172, 169, 211, 199, 41, 210, 28],
        key: [
            34, 137, 132, 72, 89, 125, 195, 252, 213, 80, 139, 71, 19, 130, 129, 164,
        ],
    }
}

// Puts the message that is said, or the session and the tree of a channel that is ready.
fn push_heard(said: &mut String, heard: &Heard) -> Result<(), AllocError> {
    match heard {
        Heard::Say(message) => push_digits(said, message.as_slice()),
        Heard::Accepted { tree_connect, .. } => push_digits(said, tree_connect.as_slice()),
        Heard::Ready { session, tree, .. } => {
            write!(said, "ready in session {session} and tree {tree}")
        }
        Heard::Refused(_) => said.push_str("refused"),
    }
}

// Puts what a dialog comes to at a frame.
fn push_behind(said: &mut String, d: &mut Dialog, frame: &[u8]) -> Result<(), AllocError> {
    if frame.len() > 65_536 {
        return said.push_str("too long");
    }
    push_heard(said, &hear(d, frame, 1)?)
}

// Puts what a dialog that said `first` comes to at what a row gives.
fn push_answer(
    said: &mut String,
    alloc: Global,
    d: &mut Dialog,
    first: &[u8],
    given: &str,
) -> Result<(), AllocError> {
    if given == "start" {
        return push_digits(said, first);
    }
    match hex::decode(alloc, given) {
        Ok(frame) => push_behind(said, d, &frame),
        Err(_) => said.push_str("no digits"),
    }
}

// How many rows, one or none, a line is that is answered with what is due. What is answered otherwise is told.
fn right_row(rt: &HostRuntime, d: &mut Dialog, first: &[u8], line: &str) -> io::Result<u64> {
    let (given, due) = line.split_once(" = ").unwrap_or(("", ""));
    if line.starts_with('#') {
        return Ok(0);
    }
    let mut said = String::new(rt.alloc());
    push_answer(&mut said, rt.alloc(), d, first, given)?;
    if said.as_str() == due {
        return Ok(1);
    }
    println!(rt; "answered {said}")?;
    Ok(0)
}

// Tells how many rows of the standard input are answered as they say, by a dialog that said `first`.
fn tell_rows(rt: &HostRuntime, d: &mut Dialog, first: &[u8]) -> io::Result<()> {
    let mut right: u64 = 0;
    for line in rt.lines(rt.alloc()) {
        let line = line?;
        right = right.saturating_add(right_row(rt, d, first, line.as_str())?);
    }
    println!(rt; "{right} rows of a dialog are answered as they say")
}

/// Tells how many rows a dialog answers as the other implementation's client does, and what it answers otherwise.
pub fn dialog_rows(rt: &HostRuntime) -> io::Result<()> {
    let config = config(rt.alloc())?;
    let (mut d, first) = start(rt.alloc(), &config, fresh(), 0)?;
    tell_rows(rt, &mut d, first.as_slice())
}
