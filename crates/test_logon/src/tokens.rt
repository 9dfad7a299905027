//! The tokens of a logon (MS-NLMP 3.1.5.1, 3.2.5.1, RFC 4178 4.2) of a user whose password the server has.
use crate::draws::{draw_8, key};
use crate::greeting::START;
use crypto_sessions::{
    Acceptor, Credentials, InitToken, NTLM_LIST, NtlmError, RespToken, Users, answer_to,
    can_write_init, can_write_resp, first_message, read_type2, sign_mech_list, write_init,
    write_resp,
};
use std::alloc::{AllocError, Global};
use wire_bytes::{Bytes, Text};

const USER: &str = "User";

const PASSWORD: &str = "Password";

// A token that cannot be written, or a message that is refused, is empty, and not what is due.

/// A first token, or the server's hint, which has none of NTLM's messages.
pub fn init_token(alloc: Global, token: Option<Bytes>) -> Result<Bytes, AllocError> {
    let value = InitToken {
        mech_list: Bytes::from_slice(alloc, &NTLM_LIST)?,
        ntlm_first: true,
        token,
        mic: None,
    };
    if can_write_init(&value) {
        write_init(alloc, &value)
    } else {
        Ok(Bytes::new(alloc))
    }
}

fn resp_token(
    alloc: Global,
    state: Option<u8>,
    token: Option<Bytes>,
    mic: Option<Bytes>,
) -> Result<Bytes, AllocError> {
    let value = RespToken {
        state,
        ntlm: state == Some(1),
        token,
        mic,
    };
    if can_write_resp(&value) {
        write_resp(alloc, &value)
    } else {
        Ok(Bytes::new(alloc))
    }
}

pub fn first_token(alloc: Global) -> Result<Bytes, AllocError> {
    let first = first_message(alloc)?;
    init_token(alloc, Some(first))
}

// The server's challenge to the client's first message, and what it keeps of both.
fn challenged(alloc: Global, first: &[u8]) -> Result<(Acceptor, Bytes), NtlmError> {
    Acceptor::challenge(alloc, first, draw_8(6), START + 3)
}

/// The server's challenge.
pub fn interim_token(alloc: Global) -> Result<Bytes, AllocError> {
    let first = first_message(alloc)?;
    match challenged(alloc, first.as_slice()) {
        Ok((_acceptor, second)) => resp_token(alloc, Some(1), Some(second), None),
        Err(_refusal) => Ok(Bytes::new(alloc)),
    }
}

// The client's answer to a challenge.
fn answered(alloc: Global, first: &[u8], second: &[u8]) -> Result<Option<Bytes>, AllocError> {
    let client = Credentials {
        user: USER,
        password: PASSWORD,
        domain: "",
        challenge: draw_8(2),
        key: key(),
    };
    match read_type2(second) {
        Ok(read) => answer_to(alloc, &client, first, second, &read),
        Err(_refusal) => Ok(None),
    }
}

fn put_user(users: &mut Users, alloc: Global) -> Result<(), AllocError> {
    let name = Text::from_str(alloc, USER)?;
    let password = Text::from_str(alloc, PASSWORD)?;
    users.push(name, password)
}

// Whether the server takes the client's third message, and finds the client's own key in it.
fn is_taken(alloc: Global, acceptor: &Acceptor, third: &[u8]) -> Result<bool, AllocError> {
    let mut users = Users::new(alloc, false);
    put_user(&mut users, alloc)?;
    match acceptor.check(alloc, &users, third) {
        Ok(found) => Ok(found.key == key()),
        Err(_refusal) => Ok(false),
    }
}

// A third message, if the server takes it.
fn taken(
    alloc: Global,
    acceptor: &Acceptor,
    third: Option<Bytes>,
) -> Result<Option<Bytes>, AllocError> {
    match third {
        Some(third) => {
            let is_taken = is_taken(alloc, acceptor, third.as_slice())?;
            Ok(if is_taken { Some(third) } else { None })
        }
        None => Ok(None),
    }
}

// The client's third message to a first one, if the server takes it.
fn third_message(alloc: Global, first: &[u8]) -> Result<Option<Bytes>, AllocError> {
    match challenged(alloc, first) {
        Ok((acceptor, second)) => {
            let third = answered(alloc, first, second.as_slice())?;
            taken(alloc, &acceptor, third)
        }
        Err(_refusal) => Ok(None),
    }
}

fn list_mic(alloc: Global, from_client: bool) -> Result<Bytes, AllocError> {
    Bytes::from_slice(
        alloc,
        &sign_mech_list(&key(), from_client, true, &NTLM_LIST),
    )
}

pub fn second_token(alloc: Global) -> Result<Bytes, AllocError> {
    let first = first_message(alloc)?;
    let third = third_message(alloc, first.as_slice())?;
    let mic = list_mic(alloc, true)?;
    resp_token(alloc, None, third, Some(mic))
}

pub fn final_token(alloc: Global) -> Result<Bytes, AllocError> {
    let mic = list_mic(alloc, false)?;
    resp_token(alloc, Some(0), None, Some(mic))
}
