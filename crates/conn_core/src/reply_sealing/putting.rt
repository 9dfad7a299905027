//! Replies and frames as they are put into bytes (MS-SMB2 2.1, 3.1.4.1, 3.1.4.3).
ghost use Rattle.std.specs.Prelude.{◌≡◌, ◌+◌, ◌-◌, ◌<◌, ◌≤◌, ◌^◌, ◌/◌, ◌%◌, ◌++◌, ◌∷◌, [], length, replicate, take, drop};
ghost use Rattle.std.specs.Prelude.{Some, if◌then◌else◌, OnOk};
ghost use Rattle.spec_crypto.specs.sessions.Choice.{is_cipher};
ghost use Rattle.spec_crypto.specs.sessions.Signing.{signed};
ghost use Rattle.crypto_sessions.specs.session_keys.Sealing.{HasCipher};
ghost use Rattle.spec_wire.specs.messages.Header.{header_spelling};
ghost use Rattle.spec_wire.specs.messages.Places.{gap_to_8};
ghost use Rattle.spec_world.specs.Answering as answering;
ghost use Rattle.conn_core.specs.reply_sealing.Saying.{CanPut, IsReplySaid, framed};
ghost use Rattle.conn_core.specs.reply_sealing.Joining.{SealsAt, SealsText, Signs};

use crate::end::ConnEnd;
use crate::reply_sealing::said::Said;
use crypto_sessions::{Nonces, seal_in_place, sign};
use spec_crypto::{Keys, Signer};
use std::alloc::AllocError;
use wire_bytes::{Header, gap_before, write_header};

/// The flag of a message that is signed (MS-SMB2 2.2.1.2).
const SIGNED: u32 = 8;

/// A message's bytes and zeros up to the next multiple of 8.
pub(crate) fn whole_size(size: usize) -> usize
    requires { size < 2 ^ 60 }
    ensures { result ≡ size + gap_to_8 size }
{
    size + gap_before(1, size) as usize
}

/// The zeros behind a message, where more follow.
pub(crate) fn gap_if(more: bool, size: usize) -> u8
    ensures is { result ≡ answering.padding_if more size }
    ensures few { result < 8 }
{
    if more { gap_before(1, size) } else { 0 }
}

/// NextCommand of a reply behind which more follow in its frame or not.
fn next_if(more: bool, size: usize) -> u32
    requires { size < 2 ^ 24 }
    ensures { result ≡ (if more then size + gap_to_8 size else 0) }
{
    if more { whole_size(size) as u32 } else { 0 }
}

fn flags_if(signs: bool, flags: u32) -> u32
    requires { flags ≤ 5 }
    ensures { result ≡ (if signs then flags + 8 else flags) }
{
    if signs { flags + SIGNED } else { flags }
}

/// The header of a reply, behind which more follow in its frame or not, and which is signed or not.
pub(crate) fn header_of(said: &Said<'_>, more: bool, signs: bool) -> Header
    requires { CanPut said.now }
    ensures { (r : answering.SaidReply) → IsReplySaid said.now r → result ≡ (let h = answering.said_header more r in
        if signs then record h { flags = h.flags + 8 } else h) }
{
    let next = next_if(more, said.size());
    let flags = flags_if(signs, said.header.flags);
    Header {
        next,
        flags,
        ..said.header
    }
}

/// Puts zero bytes at the end.
#[tactic(auto, using(crate::proofs::reply_sealing::Parts::zeros))]
pub(crate) fn put_zeros(out: &mut Vec<u8>, count: u8) -> Result<(), AllocError>
    ensures { OnOk result (out.new.items ≡ out.old.items ++ replicate count 0) }
{
    let len = out.len();
    out.resize(len + count as usize, 0)
}

/// Puts a message at the end: its header, its body, and zeros.
pub(crate) fn put_message(
    out: &mut Vec<u8>,
    header: &Header,
    body: &[u8],
    gap: u8,
) -> Result<(), AllocError>
    ensures is { OnOk result (out.new.items ≡ ((out.old.items ++ header_spelling header.now) ++ body.now) ++ replicate gap 0) }
    ensures size { OnOk result (length out.new.items ≡ length out.old.items + (64 + length body.now + gap)) }
{
    out.extend_from_slice(&write_header(header))?;
    out.extend_from_slice(body)?;
    put_zeros(out, gap)?;
    Ok(())
}

/// Puts a signature into its field.
fn put_signature(message: &mut [u8], signature: &[u8; 16])
    requires { 64 ≤ length message.old }
    ensures { message.new ≡ take 48 message.old ++ (signature.now ++ drop 64 message.old) }
{
    message[48..64].copy_from_slice(signature);
}

#[tactic(auto, unfolding(spec_crypto::specs::sessions::Signing::signed))]
fn sign_message(message: &mut [u8], signer: &Signer)
    requires whole { 64 ≤ length message.old }
    requires short { length message.old < 2 ^ 60 }
    ensures { message.new ≡ signed signer.now message.old }
{
    let signature = sign(signer, message);
    put_signature(message, &signature);
}

/// Signs the message that stands from a place on to the end.
fn sign_behind(out: &mut [u8], start: usize, signer: &Signer)
    requires whole { start + 64 ≤ length out.old }
    requires short { length out.old < start + 2 ^ 60 }
    ensures { out.new ≡ take start out.old ++ signed signer.now (drop start out.old) }
{
    sign_message(&mut out[start..], signer);
}

/// Signs that message, where someone signs it.
#[tactic(auto, using(crate::proofs::reply_sealing::Parts::unsigned))]
pub(crate) fn sign_if(out: &mut [u8], start: usize, signer: Option<Signer>)
    requires whole { start + 64 ≤ length out.old }
    requires short { length out.old < start + 2 ^ 60 }
    ensures { out.new ≡ take start out.old ++ Signs signer (drop start out.old) }
{
    if let Some(signer) = signer {
        sign_behind(out, start, &signer);
    }
}

/// The length in front of a frame: a zero byte, and three with the highest first.
fn length_field(size: usize) -> [u8; 4]
    ensures { result ≡ 0 ∷ size / 65536 % 256 ∷ size / 256 % 256 ∷ size % 256 ∷ [] }
{
    [
        0,
        (size / 65536 % 256) as u8,
        (size / 256 % 256) as u8,
        (size % 256) as u8,
    ]
}

fn put_field(out: &mut [u8], at: usize, field: &[u8; 4])
    requires { at + 4 ≤ length out.old }
    ensures { out.new ≡ take at out.old ++ (field.now ++ drop (at + 4) out.old) }
{
    out[at..at + 4].copy_from_slice(field);
}

/// Puts the length of what stands behind its four bytes.
pub(crate) fn put_length(out: &mut [u8], at: usize)
    requires { at + 4 ≤ length out.old }
    ensures { out.new ≡ take at out.old ++ framed (drop (at + 4) out.old) }
{
    let field = length_field(out.len() - at - 4);
    put_field(out, at, &field);
}

fn is_known(cipher: u16) -> bool
    ensures { result ≡ is_cipher cipher }
{
    cipher >= 1 && cipher <= 4
}

/// Seals the text behind the room of its transform header, under the next nonce.
fn seal_text(frame: &mut [u8], keys: &Keys, nonces: &mut Nonces) -> Result<(), ConnEnd>
    requires cipher { HasCipher keys.now }
    requires whole { 52 ≤ length frame.old }
    requires short { length frame.old ≤ 1114112 }
    ensures { SealsText keys.now frame.old nonces.old frame.new nonces.new result }
{
    match nonces.next() {
        Ok(nonce) => {
            seal_in_place(keys, false, &nonce, frame);
            Ok(())
        }
        Err(_spent) => Err(ConnEnd::Spent),
    }
}

fn seal_by(out: &mut [u8], from: usize, keys: &Keys, nonces: &mut Nonces) -> Result<(), ConnEnd>
    requires whole { from + 52 ≤ length out.old }
    requires short { length out.old ≤ from + 1114112 }
    ensures { SealsAt from out.old nonces.old (Some keys.now) out.new nonces.new result }
{
    if is_known(keys.cipher) {
        seal_text(&mut out[from..], keys, nonces)
    } else {
        Err(ConnEnd::Unsealable)
    }
}

/// Seals the text that stands from a place on to the end, the room of a transform header in front of it. `Unsealable` comes
/// exactly where these keys don't seal, and `Spent` where no nonce is left.
pub(crate) fn seal(
    out: &mut [u8],
    from: usize,
    keys: Option<Keys>,
    nonces: &mut Nonces,
) -> Result<(), ConnEnd>
    requires whole { from + 52 ≤ length out.old }
    requires short { length out.old ≤ from + 1114112 }
    ensures { SealsAt from out.old nonces.old keys out.new nonces.new result }
{
    match keys {
        Some(keys) => seal_by(out, from, &keys, nonces),
        None => Err(ConnEnd::Unsealable),
    }
}
