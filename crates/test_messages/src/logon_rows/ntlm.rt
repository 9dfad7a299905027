//! NTLM's messages and formulas, and the acceptor.
use crate::vectors::{refused, told, unwritten};
use crate::words::{array, bytes_in, long, push_bytes, push_digits, text, word};
use crypto_ciphers::Rc4;
use crypto_sessions::{
    Acceptor, Credentials, Logon, Users, answer_to, base_key, can_write_type2, can_write_type3,
    first_message, mic, ntowf, proof, read_type1, read_type2, read_type3, sign_mech_list,
    write_type1, write_type2, write_type3,
};
use std::alloc::{AllocError, Global};
use std::fmt::Write;
use wire_bytes::Text;

fn owf(said: &mut String, alloc: Global, words: &[&str]) -> Result<(), AllocError> {
    let key = ntowf(alloc, text(words, 1), text(words, 2), text(words, 3))?;
    push_digits(said, &key)
}

fn proof_of(said: &mut String, alloc: Global, words: &[&str]) -> Result<(), AllocError> {
    let temp = bytes_in(alloc, words, 3)?;
    push_digits(said, &proof(&array(words, 1), &array(words, 2), &temp))
}

fn mic_of(said: &mut String, alloc: Global, words: &[&str]) -> Result<(), AllocError> {
    let first = bytes_in(alloc, words, 2)?;
    let second = bytes_in(alloc, words, 3)?;
    let third = bytes_in(alloc, words, 4)?;
    push_digits(
        said,
        &mic(alloc, &array(words, 1), &first, &second, &third)?,
    )
}

fn list_mic(said: &mut String, alloc: Global, words: &[&str]) -> Result<(), AllocError> {
    let from_client = word(words, 2) == "client";
    let exchanged = word(words, 3) == "exchanged";
    let list = bytes_in(alloc, words, 4)?;
    push_digits(
        said,
        &sign_mech_list(&array(words, 1), from_client, exchanged, &list),
    )
}

fn stream(said: &mut String, alloc: Global, words: &[&str]) -> Result<(), AllocError> {
    let key = bytes_in(alloc, words, 1)?;
    let mut bytes = bytes_in(alloc, words, 2)?;
    if key.is_empty() || key.len() > 256 {
        return said.push_str("a key of another length");
    }
    Rc4::new(&key).apply(&mut bytes);
    push_digits(said, &bytes)
}

/// The answer to a row of a formula.
pub fn formula(said: &mut String, alloc: Global, words: &[&str]) -> Result<(), AllocError> {
    match word(words, 0) {
        "ntowf" => owf(said, alloc, words),
        "proof" => proof_of(said, alloc, words),
        "base_key" => push_digits(said, &base_key(&array(words, 1), &array(words, 2))),
        "mic" => mic_of(said, alloc, words),
        "list_mic" => list_mic(said, alloc, words),
        _ => stream(said, alloc, words),
    }
}

fn type1(said: &mut String, alloc: Global, m: &[u8]) -> Result<(), AllocError> {
    both_ways!(said, alloc, m, read_type1, write_type1)
}

fn type2(said: &mut String, alloc: Global, m: &[u8]) -> Result<(), AllocError> {
    both_ways!(said, alloc, m, read_type2, write_type2, v => can_write_type2(&v))
}

fn type3(said: &mut String, alloc: Global, m: &[u8]) -> Result<(), AllocError> {
    both_ways!(said, alloc, m, read_type3, write_type3, v => can_write_type3(&v))
}

/// What is said of one of the three messages, and its canonical spelling.
pub fn message(said: &mut String, alloc: Global, word: &str, m: &[u8]) -> Result<(), AllocError> {
    match word {
        "type1" => type1(said, alloc, m),
        "type2" => type2(said, alloc, m),
        _ => type3(said, alloc, m),
    }
}

fn put_user(
    users: &mut Users,
    alloc: Global,
    name: &str,
    password: &str,
) -> Result<(), AllocError> {
    let name = Text::from_str(alloc, name)?;
    let password = Text::from_str(alloc, password)?;
    users.push(name, password)
}

fn put_users(users: &mut Users, alloc: Global) -> Result<(), AllocError> {
    put_user(users, alloc, "User", "Password")?;
    put_user(users, alloc, "bob", "secret")
}

fn push_logon(said: &mut String, logon: &Logon) -> Result<(), AllocError> {
    let kind = if logon.exchanged {
        "exchanged"
    } else {
        "plain"
    };
    push_digits(said, &logon.key)?;
    write!(said, " {kind} {}", logon.user.as_str())
}

// What an acceptor says of a third message.
fn push_verdict(
    said: &mut String,
    alloc: Global,
    acceptor: &Acceptor,
    words: &[&str],
) -> Result<(), AllocError> {
    let third = bytes_in(alloc, words, 4)?;
    let mut users = Users::new(alloc, false);
    put_users(&mut users, alloc)?;
    match acceptor.check(alloc, &users, &third) {
        Ok(logon) => push_logon(said, &logon),
        Err(refusal) => refused(said, &refusal),
    }
}

// The challenge to a first message, or what is said of a third one to it: the first message, the challenge, the time and the third one.
fn challenge(said: &mut String, alloc: Global, words: &[&str]) -> Result<(), AllocError> {
    let first = bytes_in(alloc, words, 1)?;
    match Acceptor::challenge(alloc, &first, array(words, 2), long(words, 3)) {
        Ok((acceptor, second)) => {
            if word(words, 0) == "check" {
                push_verdict(said, alloc, &acceptor, words)
            } else {
                push_digits(said, second.as_slice())
            }
        }
        Err(refusal) => refused(said, &refusal),
    }
}

// The client's third message to a first one and its challenge.
fn push_third(
    said: &mut String,
    alloc: Global,
    client: &Credentials<'_>,
    first: &[u8],
    second: &[u8],
) -> Result<(), AllocError> {
    match read_type2(second) {
        Ok(read) => match answer_to(alloc, client, first, second, &read)? {
            Some(third) => push_digits(said, third.as_slice()),
            None => said.push_str("no room"),
        },
        Err(refusal) => refused(said, &refusal),
    }
}

fn answered(said: &mut String, alloc: Global, words: &[&str]) -> Result<(), AllocError> {
    let client = Credentials {
        user: word(words, 1),
        password: word(words, 2),
        domain: text(words, 3),
        challenge: array(words, 4),
        key: array(words, 5),
    };
    let first = bytes_in(alloc, words, 6)?;
    let second = bytes_in(alloc, words, 7)?;
    push_third(said, alloc, &client, &first, &second)
}

/// The answer to a row of an exchange.
pub fn exchange(said: &mut String, alloc: Global, words: &[&str]) -> Result<(), AllocError> {
    match word(words, 0) {
        "answer" => answered(said, alloc, words),
        "first" => push_bytes(said, first_message(alloc)),
        _ => challenge(said, alloc, words),
    }
}
