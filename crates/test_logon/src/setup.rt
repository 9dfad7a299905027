//! Both SESSION_SETUPs and their responses (MS-SMB2 2.2.5, 2.2.6, 3.3.5.5.3).
use crate::frames::{Line, SESSION, header, push_hashed, push_signed};
use crate::tokens::{final_token, first_token, interim_token, second_token};
use crypto_sessions::Chain;
use std::alloc::{AllocError, Global};
use wire_bytes::{
    Bytes, SessionSetupRequest, SessionSetupResponse, write_session_setup_request,
    write_session_setup_response,
};

// A token that is too long has no body.
fn request_body(alloc: Global, security: Result<Bytes, AllocError>) -> Result<Bytes, AllocError> {
    let token = security?;
    let security = token.as_slice();
    if security.len() >= 0x1_0000 {
        return Ok(Bytes::new(alloc));
    }
    let value = SessionSetupRequest {
        flags: 0,
        security_mode: 1,
        capabilities: 0,
        channel: 0,
        previous_session_id: 0,
        security,
    };
    write_session_setup_request(alloc, &value)
}

fn response_body(
    alloc: Global,
    session_flags: u16,
    security: Result<Bytes, AllocError>,
) -> Result<Bytes, AllocError> {
    let token = security?;
    let security = token.as_slice();
    if security.len() >= 0x1_0000 {
        return Ok(Bytes::new(alloc));
    }
    let value = SessionSetupResponse {
        session_flags,
        security,
    };
    write_session_setup_response(alloc, &value)
}

/// Both requests, and between them the response with MORE_PROCESSING_REQUIRED.
pub fn set_up(lines: &mut String, chain: &mut Chain, alloc: Global) -> Result<(), AllocError> {
    let body = request_body(alloc, first_token(alloc));
    push_hashed(lines, chain, alloc, &header(true, 1, 1, 0, 0), body)?;
    let mut interim = header(false, 1, 1, SESSION, 0);
    interim.status = 0xc000_0016;
    let body = response_body(alloc, 0, interim_token(alloc));
    push_hashed(lines, chain, alloc, &interim, body)?;
    let body = request_body(alloc, second_token(alloc));
    push_hashed(lines, chain, alloc, &header(true, 1, 2, SESSION, 0), body)
}

/// The final response, signed with the key that it makes. Of its flags ENCRYPT_DATA is 4.
pub fn final_reply(lines: &mut String, alloc: Global, line: &Line) -> Result<(), AllocError> {
    let flags = if line.seals { 4 } else { 0 };
    let body = response_body(alloc, flags, final_token(alloc))?;
    let header = header(false, 1, 2, SESSION, 0);
    push_signed(lines, alloc, &line.keys.signing, &header, body.as_slice())
}
