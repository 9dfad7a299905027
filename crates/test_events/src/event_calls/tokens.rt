//! The tokens of a logon at the client's end (MS-NLMP 3.1.5.1.2, MS-SPNG 3.1.5).
use crate::event_calls::fault::{Fault, kept};
use crypto_sessions::{
    Credentials, InitToken, NTLM_LIST, RespToken, Type2, answer_to, can_write_init, can_write_resp,
    first_message, read_resp, read_type2, sign_mech_list, write_init, write_resp,
};
use std::alloc::Global;
use wire_bytes::Bytes;

/// The key that a logon exchanges.
pub(crate) const KEY: [u8; 16] = [5; 16];

/// The first token, which names NTLM, or its type 1 alone.
pub fn first_token(alloc: Global, alone: bool) -> Result<Bytes, Fault> {
    let first = first_message(alloc)?;
    if alone {
        return Ok(first);
    }
    request_of(alloc, first)
}

// The token that hands over a type 1.
fn request_of(alloc: Global, first: Bytes) -> Result<Bytes, Fault> {
    let token = InitToken {
        mech_list: Bytes::from_slice(alloc, &NTLM_LIST)?,
        ntlm_first: true,
        token: Some(first),
        mic: None,
    };
    if !can_write_init(&token) {
        return Err(Fault::Other);
    }
    kept(write_init(alloc, &token))
}

// The type 3 that answers a challenge.
fn third(alloc: Global, user: &str, password: &str, second: &[u8]) -> Result<Bytes, Fault> {
    let client = Credentials {
        user,
        password,
        domain: "",
        challenge: [9; 8],
        key: KEY,
    };
    let Ok(value) = read_type2(second) else {
        return Err(Fault::Other);
    };
    let first = first_message(alloc)?;
    match answer_to(alloc, &client, first.as_slice(), second, &value)? {
        Some(third) => Ok(third),
        None => Err(Fault::Other),
    }
}

// The token that hands over a type 3, with a MIC over the list of mechanisms.
fn response_of(alloc: Global, third: Bytes) -> Result<Bytes, Fault> {
    let code = sign_mech_list(&KEY, true, true, &NTLM_LIST);
    let mic = Bytes::from_slice(alloc, &code)?;
    let token = RespToken {
        state: None,
        ntlm: false,
        token: Some(third),
        mic: Some(mic),
    };
    if !can_write_resp(&token) {
        return Err(Fault::Other);
    }
    kept(write_resp(alloc, &token))
}

fn response_in(alloc: Global, token: &[u8]) -> Result<RespToken, Fault> {
    match read_resp(alloc, token) {
        Ok(read) => Ok(read),
        Err(_) => Err(Fault::Other),
    }
}

/// The token that answers the server's challenge, or its type 3 alone.
pub fn second_token(
    alloc: Global,
    user: &str,
    password: &str,
    challenge: &[u8],
    alone: bool,
) -> Result<Bytes, Fault> {
    if alone {
        return third(alloc, user, password, challenge);
    }
    let challenge = response_in(alloc, challenge)?;
    let Some(second) = &challenge.token else {
        return Err(Fault::Other);
    };
    let third = third(alloc, user, password, second.as_slice())?;
    response_of(alloc, third)
}

/// The server's last token accepts the logon, with the server's own MIC; behind messages alone it is empty.
pub fn check_last(alloc: Global, token: &[u8], alone: bool) -> Result<(), Fault> {
    if alone {
        return if token.is_empty() {
            Ok(())
        } else {
            Err(Fault::Other)
        };
    }
    let read = response_in(alloc, token)?;
    let due = sign_mech_list(&KEY, false, true, &NTLM_LIST);
    match &read.mic {
        Some(told) if read.state == Some(0) && told.as_slice() == due.as_slice() => Ok(()),
        _ => Err(Fault::Other),
    }
}
