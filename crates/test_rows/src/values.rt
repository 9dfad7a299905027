// Why an operation came to nothing, by the words of a row. Two tables name these values in two ways.
use crate::words::Words;
use client_values::Why;
use wire_bytes::{Choice, Refusal};

/// Why a dialog was refused. Another word is read as a status: it shows in the answer.
pub fn refusal_in(words: &mut Words<'_>) -> Refusal {
    match words.next() {
        "dialect" => Refusal::BadChoice(Choice::Dialect),
        "cipher" => Refusal::BadChoice(Choice::Cipher),
        "token" | "bad-token" => Refusal::BadToken,
        "signature" | "bad-signature" => Refusal::BadSignature,
        "hash" | "no-sha512" => Refusal::NoSha512,
        _ => Refusal::Status(words.status()),
    }
}

/// Why nothing is known of how an operation settled. Another word is read as a status.
pub fn why_in(words: &mut Words<'_>) -> Why {
    match words.next() {
        "session" => Why::SessionLost(words.small()),
        "dialog" | "no-session" => Why::NoSession(refusal_in(words)),
        "tries" | "gave-up" => Why::GaveUp(words.small()),
        "end" | "ended" => Why::Ended,
        _ => Why::Status(words.status()),
    }
}
