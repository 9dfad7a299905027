//! A whole logon, frame by frame, and a create behind it.
use crate::draws::key;
use crate::frames::{Line, SESSION};
use crate::greeting::{greeting, greeting_reply, offer_of};
use crate::requests::{create, create_reply, tree, tree_reply};
use crate::setup::{final_reply, set_up};
use crypto_sessions::{Chain, Chosen, derive};
use std::alloc::{AllocError, Global};
use wire_bytes::{Offer, choose};

// The ten frames of a logon, of which five are hashed, and the keys come from them.
fn log_on(
    lines: &mut String,
    alloc: Global,
    offer: &Offer,
    chosen: &Chosen,
    seals: bool,
) -> Result<(), AllocError> {
    let mut chain = Chain::start();
    greeting(lines, &mut chain, alloc, offer)?;
    greeting_reply(lines, &mut chain, alloc, chosen)?;
    set_up(lines, &mut chain, alloc)?;
    let keys = derive(&key(), &chain.value(), chosen, SESSION);
    let line = Line { keys, seals };
    final_reply(lines, alloc, &line)?;
    tree(lines, alloc, &line)?;
    tree_reply(lines, alloc, &line)?;
    create(lines, alloc, &line)?;
    create_reply(lines, alloc, &line)
}

/// Puts the ten frames of a logon in which the client offers these ciphers and signing algorithms, each on a line, and an empty line.
pub fn push_logon(
    lines: &mut String,
    alloc: Global,
    ciphers: &[u16],
    signings: &[u16],
    seals: bool,
) -> Result<(), AllocError> {
    let offer = offer_of(alloc, ciphers, signings)?;
    match choose(&offer) {
        Ok(chosen) => log_on(lines, alloc, &offer, &chosen, seals)?,
        Err(_refusal) => lines.push_str("nothing to choose")?,
    }
    lines.push_str("\n")
}
