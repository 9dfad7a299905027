// What a link hears of logons that are refused: behind another message of their frame, in a sealed frame, and past as many as are heard.
ghost use Rattle.crypto_sessions.specs.session_keys.Sealing.{HasCipher};

use crate::turns::{Listening, NEGOTIATE, SETUP, ends_of, no_turns, outside};
use base_outside::MemLink;
use crypto_sessions::seal;
use serve_turns::{Ended, Service, SharedBook};
use spec_crypto::{Keys, Signer};
use std::alloc::Global;
use std::test::Fail;
use wire_bytes::Bytes;

/// An ECHO of SessionId 0 (MS-SMB2 2.2.28) without its length, padded to 8 bytes, and 72 in its NextCommand.
const ECHO: &str = concat!(
    "fe534d4240000000000000000d000000000000004800000000000000000000000000000000000000",
    "0000000000000000000000000000000000000000000000000400000000000000"
);

/// The bytes of a message, given this MessageId, where the first four are left out that have its frame's length.
fn message(alloc: Global, text: &str, skipped: usize, id: u16) -> Result<Vec<u8>, Fail> {
    let whole = hex::decode(alloc, text)?;
    let mut bytes = Vec::new(alloc);
    for byte in whole.as_slice().iter().skip(skipped) {
        bytes.push(*byte)?;
    }
    if bytes.len() >= 64 {
        bytes[24..26].copy_from_slice(&id.to_le_bytes());
    }
    Ok(bytes)
}

/// Adds a frame of this text (MS-SMB2 2.1).
fn add_frame(sent: &mut Vec<u8>, text: &[u8]) -> Result<(), Fail> {
    let length = (text.len() % 16_777_216) as u32;
    sent.extend_from_slice(&length.to_be_bytes())?;
    sent.extend_from_slice(text)?;
    Ok(())
}

/// A NEGOTIATE in its frame, which asks for two credits (MS-SMB2 2.2.1.2), so that two messages may follow at once.
fn greeting(alloc: Global) -> Result<Vec<u8>, Fail> {
    let mut sent = Vec::new(alloc);
    let mut text = message(alloc, NEGOTIATE, 4, 0)?;
    if text.len() >= 64 {
        text[14] = 2;
    }
    add_frame(&mut sent, text.as_slice())?;
    Ok(sent)
}

fn link_of(alloc: Global, sent: Vec<u8>) -> Result<Listening, Fail> {
    Ok(Listening::new(MemLink::new(alloc, Bytes::from_vec(sent), Bytes::new(alloc))?))
}

#[test]
fn a_logon_refused_behind_an_echo_is_told(rt: HostRuntime) -> Result<(), Fail> {
    let alloc = rt.alloc();
    let outside = outside(alloc);
    let mut sent = greeting(alloc)?;
    let mut text = message(alloc, ECHO, 0, 1)?;
    text.extend_from_slice(message(alloc, SETUP, 4, 2)?.as_slice())?;
    add_frame(&mut sent, text.as_slice())?;
    let mut link = link_of(alloc, sent)?;
    let (book, mut seat) = SharedBook::new(alloc, no_turns(alloc, 0))?;
    let end = outside.serve(&rt, &mut link, &book, &mut seat, 1, false);
    let last = book.close(&rt, seat).server;
    assert_eq!(rt; end, Ended::Closed);
    assert_eq!(rt;
        (last.accepts, last.setups, last.messages, last.ends),
        (1, 1, 0, 1)
    );
    assert_eq!(rt; (link.notes, link.refused), (2, 1));
    assert_eq!(rt; ends_of(link.refused_last), Some((8, b'u', b'r')));
    Ok(())
}

/// A session's keys under AES-128-GCM (MS-SMB2 2.2.3.1.2) and AES-CMAC.
fn session_keys() -> Keys
    ensures { HasCipher result }
{
    Keys {
        signing: Signer {
            key: [1; 16],
            algorithm: 1,
        },
        to_server: [2; 32],
        to_client: [3; 32],
        cipher: 2,
        session: 0,
    }
}

#[test]
fn a_logon_refused_in_a_sealed_frame_is_told(rt: HostRuntime) -> Result<(), Fail> {
    let alloc = rt.alloc();
    let outside = outside(alloc);
    let keys = session_keys();
    let mut sent = greeting(alloc)?;
    add_frame(&mut sent, message(alloc, SETUP, 4, 1)?.as_slice())?;
    let again = message(alloc, SETUP, 4, 2)?;
    let fits = again.len() <= 1000;
    assert!(rt; fits);
    if fits {
        let sealed = seal(alloc, &keys, true, &[9; 16], again.as_slice())?;
        add_frame(&mut sent, sealed.as_slice())?;
    }
    let mut link = link_of(alloc, sent)?;
    let mut turns = no_turns(alloc, 1);
    turns.server.keys = Some(keys);
    let (book, mut seat) = SharedBook::new(alloc, turns)?;
    let end = outside.serve(&rt, &mut link, &book, &mut seat, 1, false);
    let last = book.close(&rt, seat).server;
    assert_eq!(rt; end, Ended::Closed);
    assert_eq!(rt;
        (last.accepts, last.setups, last.messages, last.ends),
        (1, 2, 0, 1)
    );
    assert_eq!(rt; (link.notes, link.refused), (3, 1));
    assert_eq!(rt; ends_of(link.logged_on), Some((8, b'u', b'r')));
    assert_eq!(rt; ends_of(link.refused_last), Some((8, b'u', b'r')));
    Ok(())
}

/// How many SESSION_SETUPs of a connection the server hears.
const HEARD: u16 = 4096;

#[test]
fn a_logon_past_those_that_are_heard_is_refused_and_told(rt: HostRuntime) -> Result<(), Fail> {
    let alloc = rt.alloc();
    let outside = outside(alloc);
    let mut sent = greeting(alloc)?;
    for id in 1..HEARD + 2 {
        add_frame(&mut sent, message(alloc, SETUP, 4, id)?.as_slice())?;
    }
    let mut link = link_of(alloc, sent)?;
    let (book, mut seat) = SharedBook::new(alloc, no_turns(alloc, 0))?;
    let end = outside.serve(&rt, &mut link, &book, &mut seat, 1, false);
    let last = book.close(&rt, seat).server;
    assert_eq!(rt; end, Ended::Closed);
    assert_eq!(rt;
        (last.accepts, last.setups, last.messages, last.ends),
        (1, 4096, 0, 1)
    );
    assert_eq!(rt; (link.notes, link.refused), (4098, 4097));
    assert_eq!(rt; ends_of(link.refused_last), Some((8, b'u', b'r')));
    // Its response is the last one, an error response behind a header (MS-SMB2 2.2.2): STATUS_INSUFFICIENT_RESOURCES.
    let wrote = link.link.written();
    let status = wrote
        .len()
        .checked_sub(73 - 8)
        .and_then(|at| wrote.get(at..at + 4));
    assert!(rt; status == Some([0x9a, 0, 0, 0xc0].as_slice()));
    Ok(())
}
