//! Sealed messages.
use crate::words::{array, bytes_in, long, message_of, push_digits, push_many, short, word};
use crypto_sessions::{Keys, Signer, seal, unseal, unseal_in_place};
use std::alloc::{AllocError, Global};
use std::fmt::Write;

/// A message of so many bytes is long.
const MANY: usize = 10_000;

// The keys that seal in one direction; the other one has another key. A key of 16 bytes has zeros behind it.
fn keys_in(words: &[&str]) -> Keys {
    let mut key = array::<32>(words, 2);
    if word(words, 2).len() == 32 {
        key[..16].copy_from_slice(&array::<16>(words, 2));
    }
    let other = [9; 32];
    let from_client = is_from_client(words);
    Keys {
        signing: Signer {
            key: [1; 16],
            algorithm: 1,
        },
        to_server: if from_client { key } else { other },
        to_client: if from_client { other } else { key },
        cipher: short(words, 1),
        session: long(words, 3),
    }
}

fn is_from_client(words: &[&str]) -> bool {
    word(words, 4) == "client"
}

// What a frame unseals to, or why it doesn't. It is the same where the frame stands, and a refusal leaves it as it was.
fn push_opened(
    said: &mut String,
    alloc: Global,
    keys: &Keys,
    from_client: bool,
    frame: &[u8],
) -> Result<(), AllocError> {
    if keys.cipher < 1 || keys.cipher > 4 {
        return said.push_str("no cipher");
    }
    let mut place = Vec::from_slice(alloc, frame)?;
    let in_place = unseal_in_place(keys, from_client, &mut place);
    match unseal(alloc, keys, from_client, frame) {
        Ok(text) if in_place.is_ok() && place.get(52..) == Some(text.as_slice()) => {
            push_digits(said, text.as_slice())
        }
        Err(refusal) if in_place == Err(refusal) && place.as_slice() == frame => {
            write!(said, "{refusal:?}")
        }
        _ => said.push_str("something else where it stands"),
    }
}

// Puts what a frame opens to, and what is due: its message. A short one opens in its own direction alone.
fn put_both(
    opened: &mut String,
    due: &mut String,
    alloc: Global,
    keys: &Keys,
    from_client: bool,
    message: &[u8],
    frame: &[u8],
) -> Result<(), AllocError> {
    push_opened(opened, alloc, keys, from_client, frame)?;
    push_digits(due, message)?;
    if message.len() < MANY {
        push_opened(opened, alloc, keys, !from_client, frame)?;
        due.push_str("BadTag")?;
    }
    Ok(())
}

// Tells where a frame opens otherwise than it was sealed.
fn check_frame(
    said: &mut String,
    alloc: Global,
    keys: &Keys,
    from_client: bool,
    message: &[u8],
    frame: &[u8],
) -> Result<(), AllocError> {
    let mut opened = String::new(alloc);
    let mut due = String::new(alloc);
    put_both(
        &mut opened,
        &mut due,
        alloc,
        keys,
        from_client,
        message,
        frame,
    )?;
    if opened.as_str() == due.as_str() {
        Ok(())
    } else {
        said.push_str("it opens otherwise: ")
    }
}

fn push_sealed(
    said: &mut String,
    alloc: Global,
    keys: &Keys,
    from_client: bool,
    nonce: &[u8; 16],
    message: &[u8],
) -> Result<(), AllocError> {
    if keys.cipher < 1 || keys.cipher > 4 {
        return said.push_str("no cipher");
    }
    if message.len() > 1_114_060 {
        return said.push_str("too long");
    }
    let frame = seal(alloc, keys, from_client, nonce, message)?;
    check_frame(said, alloc, keys, from_client, message, frame.as_slice())?;
    push_many(said, frame.as_slice())
}

/// The sealed message, which then opens: its cipher, the key, the session, who sends it, the nonce and the message.
pub fn sealed(said: &mut String, alloc: Global, words: &[&str]) -> Result<(), AllocError> {
    let message = message_of(alloc, word(words, 6))?;
    let nonce = array(words, 5);
    push_sealed(
        said,
        alloc,
        &keys_in(words),
        is_from_client(words),
        &nonce,
        &message,
    )
}

/// What a frame unseals to: its cipher, the key, the session, who sent it, and the frame.
pub fn opened(said: &mut String, alloc: Global, words: &[&str]) -> Result<(), AllocError> {
    let frame = bytes_in(alloc, words, 5)?;
    push_opened(said, alloc, &keys_in(words), is_from_client(words), &frame)
}
