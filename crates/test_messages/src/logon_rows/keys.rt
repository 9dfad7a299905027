//! The choice of algorithms, the chain, keys, signatures and nonces.
ghost use Rattle.std.specs.Prelude.{◌≤◌, length};

use crate::vectors::refused;
use crate::words::{array, bytes_in, long, message_of, push_digits, short, word};
use crypto_ciphers::kdf;
use crypto_sessions::{Chain, Chosen, Keys, Nonces, Signer, bind, derive, sign, verify};
use std::alloc::{AllocError, Global};
use std::fmt::Write;
use wire_bytes::{Numbers, Offer, choose};

// The chain takes the message of a word; `none` is no message.
fn take(chain: &mut Chain, alloc: Global, word: &str) -> Result<(), AllocError> {
    if word != "none" {
        chain.take(&message_of(alloc, word)?);
    }
    Ok(())
}

// The value behind the messages of a row.
fn chain(said: &mut String, alloc: Global, words: &[&str]) -> Result<(), AllocError> {
    let mut chain = Chain::start();
    for word in words.get(1..).unwrap_or(&[]) {
        take(&mut chain, alloc, word)?;
    }
    push_digits(said, &chain.value())
}

fn put_numbers(numbers: &mut Numbers, word: &str) -> Result<(), AllocError> {
    for number in word.split(',') {
        numbers.push(number.parse::<u16>().unwrap_or(0))?;
    }
    Ok(())
}

// Numbers joined by commas, `-` for none.
fn numbers_of(alloc: Global, word: &str) -> Result<Numbers, AllocError> {
    let mut numbers = Numbers::new(alloc);
    if word != "-" {
        put_numbers(&mut numbers, word)?;
    }
    Ok(numbers)
}

fn choice(said: &mut String, alloc: Global, words: &[&str]) -> Result<(), AllocError> {
    let offer = Offer {
        preauth: word(words, 1) == "yes",
        sha512: word(words, 2) == "yes",
        ciphers: numbers_of(alloc, word(words, 3))?,
        signings: numbers_of(alloc, word(words, 4))?,
    };
    match choose(&offer) {
        Ok(chosen) => write!(said, "{chosen:?}"),
        Err(refusal) => refused(said, &refusal),
    }
}

fn derivation(said: &mut String, alloc: Global, words: &[&str]) -> Result<(), AllocError> {
    let key = bytes_in(alloc, words, 1)?;
    let label = bytes_in(alloc, words, 2)?;
    let context = bytes_in(alloc, words, 3)?;
    let bits = if word(words, 4) == "256" { 256 } else { 128 };
    push_digits(said, &kdf(&key, &label, &context, bits))
}

fn push_keys(said: &mut String, keys: &Keys) -> Result<(), AllocError> {
    push_digits(said, &keys.signing.key)?;
    write!(said, " {} ", keys.signing.algorithm)?;
    push_digits(said, &keys.to_server)?;
    said.push_str(" ")?;
    push_digits(said, &keys.to_client)?;
    write!(said, " {} {}", keys.cipher, keys.session)
}

// The chain's value that a word tells.
fn value_of(alloc: Global, word: &str) -> Result<[u8; 64], AllocError> {
    let message = message_of(alloc, word)?;
    let mut value = [0; 64];
    if message.len() == 64 {
        value.copy_from_slice(&message);
    }
    Ok(value)
}

// The keys of a session: the logon's exported key, the chain's value, the cipher, the signing algorithm and the session.
fn session_in(alloc: Global, words: &[&str]) -> Result<Keys, AllocError> {
    let chain = value_of(alloc, word(words, 2))?;
    let chosen = Chosen {
        cipher: short(words, 3),
        signing: short(words, 4),
        signing_told: true,
    };
    Ok(derive(&array(words, 1), &chain, &chosen, long(words, 5)))
}

fn derived(said: &mut String, alloc: Global, words: &[&str]) -> Result<(), AllocError> {
    push_keys(said, &session_in(alloc, words)?)
}

// The keys of a channel that is bound to a session.
fn bound(said: &mut String, alloc: Global, words: &[&str]) -> Result<(), AllocError> {
    let keys = session_in(alloc, words)?;
    let chain = value_of(alloc, word(words, 7))?;
    push_keys(said, &bind(&array(words, 6), &chain, &keys))
}

// The signing key where there is no cipher.
fn signing(said: &mut String, alloc: Global, words: &[&str]) -> Result<(), AllocError> {
    let chain = value_of(alloc, word(words, 2))?;
    let chosen = Chosen {
        cipher: 0,
        signing: 1,
        signing_told: false,
    };
    push_digits(
        said,
        &derive(&array(words, 1), &chain, &chosen, 1).signing.key,
    )
}

fn put_signature(message: &mut [u8], signature: &[u8; 16])
    requires { 64 ≤ length message.old }
{
    message[48..64].copy_from_slice(signature);
}

fn is_signed(signer: &Signer, message: &[u8]) -> bool {
    if message.len() < 64 || message.len() >= 1_000_000_000 {
        return false;
    }
    verify(signer, message)
}

// Puts the signature of a message. With it the message verifies, and not with a byte more.
fn push_signature(
    said: &mut String,
    signer: &Signer,
    message: &mut Vec<u8>,
) -> Result<(), AllocError> {
    if message.len() < 64 || message.len() >= 1_000_000 {
        return said.push_str("a message of another length");
    }
    let signature = sign(signer, message);
    put_signature(message, &signature);
    if !is_signed(signer, message) {
        said.push_str("its signature does not verify: ")?;
    }
    message.push(1)?;
    if is_signed(signer, message) {
        said.push_str("another message verifies: ")?;
    }
    push_digits(said, &signature)
}

// The signature of a row: the algorithm, the key and the message.
fn signature(said: &mut String, alloc: Global, words: &[&str]) -> Result<(), AllocError> {
    let signer = Signer {
        key: array(words, 2),
        algorithm: short(words, 1),
    };
    let mut message = message_of(alloc, word(words, 3))?;
    push_signature(said, &signer, &mut message)
}

// The first nonces of a channel, so many.
fn nonces(said: &mut String, words: &[&str]) -> Result<(), AllocError> {
    let mut nonces = Nonces::new(short(words, 1));
    for _ in 0..short(words, 2) {
        match nonces.next() {
            Ok(nonce) => push_digits(said, &nonce)?,
            Err(_spent) => said.push_str("no nonce is left")?,
        }
    }
    Ok(())
}

/// The answer to a row of the choice, the chain, of keys, signatures or nonces.
pub fn answer(said: &mut String, alloc: Global, words: &[&str]) -> Result<(), AllocError> {
    match word(words, 0) {
        "choice" => choice(said, alloc, words),
        "chain" => chain(said, alloc, words),
        "kdf" => derivation(said, alloc, words),
        "keys" => derived(said, alloc, words),
        "bound" => bound(said, alloc, words),
        "signing" => signing(said, alloc, words),
        "sign" => signature(said, alloc, words),
        "nonces" => nonces(said, words),
        _ => said.push_str("an unknown row"),
    }
}
