//! Contexts of a NEGOTIATE: what they offer, and the offer as it is written.
use crate::vectors::{refused, unwritten};
use crate::words::{bytes_in, push_bytes, short};
use std::alloc::{AllocError, Global};
use std::fmt::Write;
use wire_bytes::{Offer, read_contexts, write_contexts};

/// What an offer holds; behind it the offer as it is written, where SHA-512 is offered.
fn push_offer(said: &mut String, alloc: Global, offer: &Offer) -> Result<(), AllocError> {
    let ciphers = offer.ciphers.as_slice();
    let signings = offer.signings.as_slice();
    write!(
        said,
        "sha512 {} preauth {} ciphers {ciphers:?} signings {signings:?}",
        offer.sha512, offer.preauth
    )?;
    if !offer.sha512 {
        return Ok(());
    }
    said.push_str("\n  ")?;
    if ciphers.len() < 32767 && signings.len() < 32767 {
        push_bytes(said, write_contexts(alloc, offer, &[0x5a; 32]))
    } else {
        unwritten(said)
    }
}

/// What is said of so many contexts.
pub fn offered(said: &mut String, alloc: Global, count: u16, m: &[u8]) -> Result<(), AllocError> {
    match read_contexts(alloc, m, count)? {
        Ok(offer) => push_offer(said, alloc, &offer),
        Err(refusal) => refused(said, &refusal),
    }
}

/// The answer to a row of contexts: their number, and the digits.
pub fn answer(said: &mut String, alloc: Global, words: &[&str]) -> Result<(), AllocError> {
    said.push_str("contexts: ")?;
    let bytes = bytes_in(alloc, words, 2)?;
    offered(said, alloc, short(words, 1), &bytes)
}
