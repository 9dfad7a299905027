//! Published examples of blocks, modes, hashes and keys, and vectors of another implementation: what is answered to a row. Bytes are
//! hexadecimal digits, `COUNT*DIGITS` repeats them, `-` is none.

mod modes;
mod vectors;

use crate::words::{Fault, Words, push_digits};
use crypto_ciphers::{Rc4, cmac, hmac_md5, hmac_sha256, kdf, md4};
use modes::aes_with;
use std::alloc::Global;

/// Puts what the words of a row come to, in digits.
pub fn push_answer(said: &mut String, alloc: Global, words: &mut Words<'_>) -> Result<(), Fault> {
    let kind = words.next();
    match kind {
        "aes" | "cmac" => push_by_key(said, alloc, kind, words),
        "rc4" => push_stream(said, alloc, words),
        "gcm" | "ccm" => modes::push_sealed(said, alloc, kind, words),
        "vector" => vectors::push_answer(said, alloc, words),
        _ => push_hash(said, alloc, kind, words),
    }
}

// `aes KEY BLOCK`, `cmac KEY TEXT`.
fn push_by_key(
    said: &mut String,
    alloc: Global,
    kind: &str,
    words: &mut Words<'_>,
) -> Result<(), Fault> {
    let aes = aes_with(words.bytes(alloc)?.as_slice())?;
    let text = words.bytes(alloc)?;
    if kind == "cmac" {
        return Ok(push_digits(said, &cmac(&aes, &text))?);
    }
    match <[u8; 16]>::try_from(text.as_slice()) {
        Ok(block) => Ok(push_digits(said, &aes.encrypt_block(&block))?),
        Err(_) => Err(Fault::Other("a block of another length")),
    }
}

// `md4 MESSAGE`, `hmac_md5 KEY TEXT`, `hmac_sha256 KEY TEXT`, `kdf KEY LABEL CONTEXT 128|256`.
fn push_hash(
    said: &mut String,
    alloc: Global,
    kind: &str,
    words: &mut Words<'_>,
) -> Result<(), Fault> {
    let key = words.bytes(alloc)?;
    let text = words.bytes(alloc)?;
    let context = words.bytes(alloc)?;
    match kind {
        "md4" => Ok(push_digits(said, &md4(&key))?),
        "hmac_md5" => {
            let (front, back) = text.split_at(text.len() / 2);
            Ok(push_digits(said, &hmac_md5(&key, front, back))?)
        }
        "hmac_sha256" => Ok(push_digits(said, &hmac_sha256(&key, &text))?),
        "kdf" => {
            if words.says("256") {
                return Ok(push_digits(said, &kdf(&key, &text, &context, 256))?);
            }
            Ok(push_digits(said, &kdf(&key, &text, &context, 128))?)
        }
        _ => Err(Fault::Other("an unknown word")),
    }
}

// `rc4 KEY TEXT`, the same whether the text comes whole or in two parts.
fn push_stream(said: &mut String, alloc: Global, words: &mut Words<'_>) -> Result<(), Fault> {
    let key = words.bytes(alloc)?;
    let mut whole = words.bytes(alloc)?;
    if key.is_empty() || key.len() > 256 {
        return Err(Fault::Other("a key of another length"));
    }
    let mut parts = Vec::from_slice(alloc, &whole)?;
    Rc4::new(&key).apply(&mut whole);
    let mut cipher = Rc4::new(&key);
    let third = parts.len() / 3;
    let (front, back) = parts.as_mut_slice().split_at_mut(third);
    cipher.apply(front);
    cipher.apply(back);
    if parts.as_slice() != whole.as_slice() {
        return Err(Fault::Other("another by parts"));
    }
    Ok(push_digits(said, &whole)?)
}
