//! SPNEGO tokens, read and written again.
use crate::vectors::{refused, unwritten};
use crate::words::{push_bytes, push_digits};
use crypto_sessions::{
    InitToken, RespToken, can_write_init, can_write_resp, read_init, read_resp, write_init,
    write_resp,
};
use std::alloc::{AllocError, Global};
use std::fmt::Write;
use wire_bytes::Bytes;

// Puts the digits of a part, or `none`.
fn push_part(said: &mut String, bytes: &Option<Bytes>) -> Result<(), AllocError> {
    match bytes {
        Some(bytes) => push_digits(said, bytes.as_slice()),
        None => said.push_str("none"),
    }
}

// Puts a token and a MIC.
fn push_parts(
    said: &mut String,
    token: &Option<Bytes>,
    mic: &Option<Bytes>,
) -> Result<(), AllocError> {
    said.push_str(" token ")?;
    push_part(said, token)?;
    said.push_str(" mic ")?;
    push_part(said, mic)?;
    said.push_str("\n  ")
}

fn push_init(said: &mut String, alloc: Global, token: &InitToken) -> Result<(), AllocError> {
    said.push_str("list ")?;
    push_digits(said, token.mech_list.as_slice())?;
    write!(said, " ntlm_first {}", token.ntlm_first)?;
    push_parts(said, &token.token, &token.mic)?;
    if can_write_init(token) {
        push_bytes(said, write_init(alloc, token))
    } else {
        said.push_str("with another mechanism")
    }
}

fn push_resp(said: &mut String, alloc: Global, token: &RespToken) -> Result<(), AllocError> {
    match token.state {
        Some(state) => write!(said, "state {state} ntlm {}", token.ntlm)?,
        None => write!(said, "state none ntlm {}", token.ntlm)?,
    }
    push_parts(said, &token.token, &token.mic)?;
    if can_write_resp(token) {
        push_bytes(said, write_resp(alloc, token))
    } else {
        unwritten(said)
    }
}

/// What is said of a first token.
pub fn init(said: &mut String, alloc: Global, m: &[u8]) -> Result<(), AllocError> {
    match read_init(alloc, m) {
        Ok(token) => push_init(said, alloc, &token),
        Err(refusal) => refused(said, &refusal),
    }
}

/// What is said of another token.
pub fn resp(said: &mut String, alloc: Global, m: &[u8]) -> Result<(), AllocError> {
    match read_resp(alloc, m) {
        Ok(token) => push_resp(said, alloc, &token),
        Err(refusal) => refused(said, &refusal),
    }
}
