//! Messages: a header and a body, and what they go out as, plain, signed or sealed, each as digits on a line of its own.
ghost use Rattle.std.specs.Prelude.{◌≤◌, length};

use crypto_sessions::{Chain, Keys, Nonces, Signer, seal, sign};
use std::alloc::{AllocError, Global};
use std::fmt::Write;
use wire_bytes::{Bytes, Header, write_header};

/// The first id of a session in the server's first epoch.
pub const SESSION: u64 = 0x1_0000_0001;

/// A request's header (MS-SMB2 2.2.1.2), which takes one credit and asks for 512, or a response's, which grants one.
pub fn header(from_client: bool, command: u16, message: u64, session: u64, tree: u32) -> Header {
    Header {
        charge: 1,
        status: 0,
        command,
        credits: if from_client { 512 } else { 1 },
        flags: if from_client { 0 } else { 1 },
        next: 0,
        message,
        tree,
        session,
        signature: [0; 16],
    }
}

/// Puts hexadecimal digits.
pub fn push_digits(lines: &mut String, bytes: &[u8]) -> Result<(), AllocError> {
    for byte in bytes {
        write!(lines, "{byte:02x}")?;
    }
    Ok(())
}

fn push_line(lines: &mut String, frame: &[u8]) -> Result<(), AllocError> {
    push_digits(lines, frame)?;
    lines.push_str("\n")
}

/// A header and what stands behind it.
fn message(alloc: Global, header: &Header, body: &[u8]) -> Result<Vec<u8>, AllocError> {
    let mut whole = Vec::from_slice(alloc, &write_header(header))?;
    whole.extend_from_slice(body)?;
    Ok(whole)
}

/// One of the five messages that are hashed.
pub fn push_hashed(
    lines: &mut String,
    chain: &mut Chain,
    alloc: Global,
    header: &Header,
    body: Result<Bytes, AllocError>,
) -> Result<(), AllocError> {
    let whole = message(alloc, header, body?.as_slice())?;
    chain.take(&whole);
    push_line(lines, &whole)
}

fn put_signature(message: &mut [u8], signature: &[u8; 16])
    requires { 64 ≤ length message.old }
{
    message[48..64].copy_from_slice(signature);
}

/// A message with its signature in its field, and the flag of a signature.
pub fn push_signed(
    lines: &mut String,
    alloc: Global,
    signer: &Signer,
    header: &Header,
    body: &[u8],
) -> Result<(), AllocError> {
    let mut flagged = *header;
    flagged.flags = header.flags | 8;
    let mut whole = message(alloc, &flagged, body)?;
    if whole.len() < 64 || whole.len() >= 1_000_000_000 {
        return lines.push_str("a message of another length\n");
    }
    let signature = sign(signer, &whole);
    put_signature(&mut whole, &signature);
    push_line(lines, &whole)
}

// The nonce of the first channel behind so many others. Where none is left, it is another one than is due.
fn nonce_behind(count: u16) -> [u8; 16] {
    let mut nonces = Nonces::new(1);
    let mut nonce = [0; 16];
    for _ in 0..=count {
        match nonces.next() {
            Ok(next) => nonce = next,
            Err(_spent) => nonce = [0; 16],
        }
    }
    nonce
}

// A message that is sealed behind so many others of its direction.
fn push_sealed(
    lines: &mut String,
    alloc: Global,
    keys: &Keys,
    from_client: bool,
    count: u16,
    whole: &[u8],
) -> Result<(), AllocError> {
    if keys.cipher < 1 || keys.cipher > 4 {
        return lines.push_str("no cipher\n");
    }
    if whole.len() > 1_114_060 {
        return lines.push_str("too long\n");
    }
    let frame = seal(alloc, keys, from_client, &nonce_behind(count), whole)?;
    push_line(lines, frame.as_slice())
}

/// A session's first channel.
#[derive(Clone, Copy)]
pub struct Line {
    pub keys: Keys,
    pub seals: bool,
}

/// A message of a session, sealed behind so many others of its direction, or signed.
pub fn push_guarded(
    lines: &mut String,
    alloc: Global,
    line: &Line,
    from_client: bool,
    count: u16,
    header: &Header,
    body: Result<Bytes, AllocError>,
) -> Result<(), AllocError> {
    let body = body?;
    if !line.seals {
        return push_signed(lines, alloc, &line.keys.signing, header, body.as_slice());
    }
    let whole = message(alloc, header, body.as_slice())?;
    push_sealed(lines, alloc, &line.keys, from_client, count, &whole)
}
