//! Four whole logons, each with a create behind it, message by message. It is a room because each message is compared
//! with the bytes of another implementation. Nothing stands on it.
//!
//! Four whole logons, each with a create behind it. Every message is put together from the calls of both ends, from what a
//! run draws on, and goes through them: NEGOTIATE, both SESSION_SETUPs, TREE_CONNECT and CREATE with their responses, as frames.
//! A client's dialog is then driven through such a logon, by the rows of the standard input, and has to say the same bytes.
//! Rows and expected output are written by tools/worked-logon.py, which makes the same bytes by itself. Where a message cannot be
//! written, as with a token that is too long, another one or a line of words stands in its place, and so not what is expected.
#![tactic(auto)]

mod dialog;
mod draws;
mod frames;
mod greeting;
mod logon;
mod requests;
mod setup;
mod tokens;

use dialog::dialog_rows;
use logon::push_logon;
use std::alloc::{AllocError, Global};
use std::io;

fn push_logons(lines: &mut String, alloc: Global) -> Result<(), AllocError> {
    push_logon(lines, alloc, &[2, 1, 4, 3], &[2, 1], true)?;
    push_logon(lines, alloc, &[4, 3], &[1], false)?;
    push_logon(lines, alloc, &[1], &[], true)?;
    push_logon(lines, alloc, &[4, 2], &[1, 2], true)
}

fn main(rt: HostRuntime) -> io::Result<()> {
    let mut lines = String::new(rt.alloc());
    push_logons(&mut lines, rt.alloc())?;
    print!(rt; "{lines}")?;
    dialog_rows(&rt)
}
