//! SESSION_SETUP requests (MS-SMB2 2.2.5) with their signatures, and the keys that a client has behind them (3.2.5.3).

use crate::event_calls::envelope::Envelope;
use crate::event_calls::fault::{Fault, kept};
use crate::event_calls::tokens::KEY;
use crypto_sessions::{bind, derive, sign};
use server_checks::SetupHeard;
use spec_crypto::{Chosen, Keys, Signer};
use spec_wire::Header;
use std::alloc::{AllocError, Global};
use wire_bytes::{
    Bytes, SessionSetupRequest, read_header, write_header, write_session_setup_request,
};
use wire_commands::{Request, request_of};

const SIGNED: u32 = 8;

// The value of the chain behind a logon's last request: another one on each connection.
fn chain_on(connection: u32) -> [u8; 64] {
    [(connection % 256) as u8; 64]
}

fn chosen(around: &Envelope) -> Chosen {
    Chosen {
        cipher: around.cipher,
        signing: around.signing,
        signing_told: true,
    }
}

/// The keys behind the last SESSION_SETUP of a logon: a session's, or those of a channel that is bound to it by the keys
/// of the connection that signs.
pub fn keys_behind(around: &Envelope) -> Keys {
    let chain = chain_on(around.connection);
    let first = chain_on(around.signed_by.unwrap_or(0));
    if around.binding {
        let session = derive(&KEY, &first, &chosen(around), around.session);
        return bind(&KEY, &chain, &session);
    }
    derive(&KEY, &chain, &chosen(around), around.session)
}

fn header_in(around: &Envelope) -> Header {
    Header {
        charge: 1,
        status: around.sequence as u32,
        command: 1,
        credits: 512,
        flags: if around.signed_by.is_some() {
            SIGNED
        } else {
            0
        },
        next: 0,
        message: around.message,
        tree: around.tree,
        session: around.session,
        signature: [0; 16],
    }
}

fn spelled(alloc: Global, header: &Header, body: &[u8]) -> Result<Bytes, AllocError> {
    let mut message = Bytes::from_slice(alloc, &write_header(header))?;
    message.extend(body)?;
    Ok(message)
}

// The signature of the message that this header and this body are without one.
fn signature_by(
    alloc: Global,
    signer: &Signer,
    header: &Header,
    body: &[u8],
) -> Result<[u8; 16], Fault> {
    let message = spelled(alloc, header, body)?;
    let bytes = message.as_slice();
    if bytes.len() < 64 || bytes.len() >= 1_000_000 {
        return Err(Fault::Other);
    }
    Ok(sign(signer, bytes))
}

fn body_of(alloc: Global, around: &Envelope, token: &[u8]) -> Result<Bytes, Fault> {
    if token.len() >= 65_536 {
        return Err(Fault::Other);
    }
    let request = SessionSetupRequest {
        flags: if around.binding { 1 } else { 0 },
        security_mode: 1,
        capabilities: 0,
        channel: 0,
        security: token,
        previous_session_id: around.previous,
    };
    kept(write_session_setup_request(alloc, &request))
}

/// The bytes of a SESSION_SETUP.
pub fn setup_message(alloc: Global, around: &Envelope, token: &[u8]) -> Result<Bytes, Fault> {
    let body = body_of(alloc, around, token)?;
    let mut header = header_in(around);
    if let Some(connection) = around.signed_by {
        let chain = chain_on(connection);
        let signer = derive(&KEY, &chain, &chosen(around), around.session).signing;
        header.signature = signature_by(alloc, &signer, &header, body.as_slice())?;
    }
    kept(spelled(alloc, &header, body.as_slice()))
}

/// A SESSION_SETUP as it is heard.
pub fn setup_heard<'a>(
    alloc: Global,
    around: &Envelope,
    message: &'a [u8],
) -> Result<SetupHeard<'a>, Fault> {
    let Ok(header) = read_header(message) else {
        return Err(Fault::Other);
    };
    match request_of(alloc, &header, message)? {
        Some(Request::Setup(form)) => Ok(SetupHeard {
            connection: around.connection,
            client_guid: around.client,
            session_id: header.session,
            tree_id: header.tree,
            message_id: header.message,
            channel_sequence: around.sequence,
            replay: around.replay,
            fault: around.fault,
            form,
            bytes: message,
            chosen: chosen(around),
            chain: chain_on(around.connection),
            fresh: [7; 8],
        }),
        _ => Err(Fault::Other),
    }
}
