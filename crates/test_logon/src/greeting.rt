//! NEGOTIATE and its response (MS-SMB2 2.2.3, 2.2.4, 3.3.5.4).
use crate::draws::draw;
use crate::frames::{header, push_hashed};
use crate::tokens::init_token;
use crypto_sessions::{Chain, Chosen};
use std::alloc::{AllocError, Global};
use wire_bytes::{
    Bytes, NegotiateRequest, NegotiateResponse, Numbers, Offer, context_count, write_contexts,
    write_negotiate_request, write_negotiate_response,
};

const CLIENT: [u8; 16] = [
    16, 17, 18, 19, 20, 21, 22, 23, 24, 25, 26, 27, 28, 29, 30, 31,
];

const SERVER: [u8; 16] = [
    32, 33, 34, 35, 36, 37, 38, 39, 40, 41, 42, 43, 44, 45, 46, 47,
];

/// Large MTU 4, multi-channel 8 and persistent handles 0x10.
const CAPABILITIES: u32 = 0x1c;

/// 3.1.1, as it stands in the list of dialects.
const DIALECT: [u8; 2] = [0x11, 3];

/// The moment of the first event of a run, in units of 100 nanoseconds since 1601; each event takes one.
pub const START: u64 = 133_314_349_322_460_000;

/// What the client offers, in its order.
pub fn offer_of(alloc: Global, ciphers: &[u16], signings: &[u16]) -> Result<Offer, AllocError> {
    let ciphers = Numbers::from_slice(alloc, ciphers)?;
    let signings = Numbers::from_slice(alloc, signings)?;
    Ok(Offer {
        sha512: true,
        preauth: true,
        ciphers,
        signings,
    })
}

// The contexts of an offer, and none of one with too many numbers.
fn contexts_of(alloc: Global, offer: &Offer, salt: &[u8; 32]) -> Result<Bytes, AllocError> {
    if offer.ciphers.as_slice().len() < 32767 && offer.signings.as_slice().len() < 32767 {
        write_contexts(alloc, offer, salt)
    } else {
        Ok(Bytes::new(alloc))
    }
}

/// The client's NEGOTIATE.
pub fn greeting(
    lines: &mut String,
    chain: &mut Chain,
    alloc: Global,
    offer: &Offer,
) -> Result<(), AllocError> {
    let contexts = contexts_of(alloc, offer, &draw(1))?;
    let dialects = DIALECT;
    let value = NegotiateRequest {
        security_mode: 3,
        capabilities: CAPABILITIES,
        client_guid: CLIENT,
        negotiate_context_count: context_count(offer),
        dialects: &dialects,
        contexts: contexts.as_slice(),
    };
    let body = write_negotiate_request(alloc, &value);
    push_hashed(lines, chain, alloc, &header(true, 0, 0, 0, 0), body)
}

// Each kind that was offered, with the one algorithm that was chosen.
fn choice_of(alloc: Global, chosen: &Chosen) -> Result<Offer, AllocError> {
    if chosen.signing_told {
        return offer_of(alloc, &[chosen.cipher], &[chosen.signing]);
    }
    offer_of(alloc, &[chosen.cipher], &[])
}

// The body of the server's response, of this choice; none for a token that is too long.
fn response_body(alloc: Global, choice: &Offer, security: &[u8]) -> Result<Bytes, AllocError> {
    if security.len() >= 0x1_0000 {
        return Ok(Bytes::new(alloc));
    }
    let contexts = contexts_of(alloc, choice, &draw(4))?;
    let value = NegotiateResponse {
        security_mode: 3,
        dialect_revision: 0x311,
        negotiate_context_count: context_count(choice),
        server_guid: SERVER,
        capabilities: CAPABILITIES,
        max_transact_size: 0x10_0000,
        max_read_size: 0x10_0000,
        max_write_size: 0x10_0000,
        system_time: START + 1,
        server_start_time: 0,
        security,
        contexts: contexts.as_slice(),
    };
    write_negotiate_response(alloc, &value)
}

/// The server's response, which grants all credits.
pub fn greeting_reply(
    lines: &mut String,
    chain: &mut Chain,
    alloc: Global,
    chosen: &Chosen,
) -> Result<(), AllocError> {
    let choice = choice_of(alloc, chosen)?;
    let hint = init_token(alloc, None)?;
    let mut header = header(false, 0, 0, 0, 0);
    header.credits = 512;
    let body = response_body(alloc, &choice, hint.as_slice());
    push_hashed(lines, chain, alloc, &header, body)
}
