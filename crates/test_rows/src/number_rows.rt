//! Numbers that a connection and an open keep: the message ids of a window (MS-SMB2 3.3.1.7), and an open's channel sequence (3.3.5.2.10).
use crate::words::{Fault, Words};
use std::alloc::Global;
use std::fmt::Write;
use store_opens::{Offered, Seen};
use wire_credits::Window;

/// Puts what is answered to the words of a row.
pub fn push_answer(said: &mut String, alloc: Global, words: &mut Words<'_>) -> Result<(), Fault> {
    if words.says("window") {
        let mut window = Window::new(alloc)?;
        push_turns(said, &mut window, words.rest())
    } else {
        push_offers(said, words)
    }
}

// `take FIRST CHARGE` and `grant COUNT` of a new window, with commas between them: `ok` or the id that isn't held, how many are granted.
fn push_turns(said: &mut String, window: &mut Window, turns: &str) -> Result<(), Fault> {
    for turn in turns.split(", ") {
        if !said.is_empty() {
            said.push_str(", ")?;
        }
        push_turn(said, window, &mut Words::new(turn))?;
    }
    Ok(())
}

fn push_turn(said: &mut String, window: &mut Window, words: &mut Words<'_>) -> Result<(), Fault> {
    if words.says("grant") {
        return Ok(write!(said, "{}", window.grant(words.short()))?);
    }
    let first = words.number();
    match window.take(first, words.short()) {
        Ok(()) => Ok(said.push_str("ok")?),
        Err(outside) => Ok(write!(said, "outside {}", outside.id)?),
    }
}

// The sequence that an open keeps first, and one request's after the other: which it is against the kept one.
fn push_offers(said: &mut String, words: &mut Words<'_>) -> Result<(), Fault> {
    let mut seen = Seen::new(words.short());
    for offer in words.rest().split(" ") {
        if !said.is_empty() {
            said.push_str(", ")?;
        }
        match seen.offer(Words::new(offer).short()) {
            Offered::Same => said.push_str("same")?,
            Offered::Adopted => said.push_str("adopted")?,
            Offered::Stale(kept) => write!(said, "stale {kept}")?,
        }
    }
    Ok(())
}
