// Scripts of a client's events, row by row, with what a plain client in Python answers. tools/plain-client.py writes them and tells the
// form of a row. Each script has a client of its own.
mod events;
mod played;
mod sent;
mod telling;

use crate::words::{Fault, Words, kept};
use client_events::{Act, Event};
pub use played::{Plays, Script};
use std::alloc::Global;
use std::fmt::Write;

/// Puts what is answered to a row: what is done at its event, and what settles by it; at the end of a script all that stands.
pub fn push_answer<P: Plays>(
    said: &mut String,
    alloc: Global,
    script: &mut Script<P>,
    words: &mut Words<'_>,
) -> Result<(), Fault> {
    match words.next() {
        "script" => {
            *script = Script::new(alloc);
            kept(said.push_str("nothing"))
        }
        "end" => kept(telling::push_all(said, script.played.table())),
        "wear" => wear(said, alloc, &mut script.played, words),
        kind => {
            push_done(said, alloc, &mut script.played, kind, words)?;
            kept(telling::push_news(said, script))
        }
    }
}

fn push_done<P: Plays>(
    said: &mut String,
    alloc: Global,
    played: &mut P,
    kind: &str,
    words: &mut Words<'_>,
) -> Result<(), Fault> {
    let mut ahead = *words;
    let was_ready = played.table().session.is_ready(ahead.small());
    let event = events::event_of(alloc, kind, words)?;
    let act = played.at_event(event, alloc)?;
    match kind {
        "submit" => kept(write!(said, "{} taken", played.table().ops.len())),
        "push" => sent::push_sent(said, alloc, played, act),
        _ => kept(said.push_str(word_of(kind, act, was_ready))),
    }
}

// What an event came to that makes no request.
fn word_of(kind: &str, act: Act, was_ready: bool) -> &'static str {
    match act {
        Act::Nothing if kind == "ready" => "ready",
        Act::Nothing if kind == "cut" && was_ready => "lost",
        Act::Nothing => "nothing",
        Act::CloseChannel if kind == "ready" => "apart",
        Act::CloseChannel if kind != "cut" => "nothing",
        Act::CloseChannels if kind == "cut" => "ends",
        Act::CloseChannels if kind != "ready" => "closes all",
        _ => "it asks for more",
    }
}

fn wear_once<P: Plays>(alloc: Global, played: &mut P, channel: u8) -> Result<Act, Fault> {
    let session = played.table().session.id();
    let tree = played.table().session.tree();
    let ready = Event::Ready {
        channel,
        session,
        tree,
    };
    let _ = played.at_event(ready, alloc)?;
    played.at_event(Event::Cut { channel }, alloc)
}

// A channel becomes ready in the session and is cut, so often.
fn wear<P: Plays>(
    said: &mut String,
    alloc: Global,
    played: &mut P,
    words: &mut Words<'_>,
) -> Result<(), Fault> {
    let channel = words.tiny();
    for _ in 0..words.small() {
        let _ = wear_once(alloc, played, channel)?;
    }
    kept(said.push_str("nothing"))
}
