//! A request on a line.
ghost use Rattle.std.specs.Prelude.{◌≡◌, ◌+◌, ◌≤◌, ◌<◌, ◌^◌, ◌++◌, ℕ, false, true, length, take, drop, vec_len, IfOk, MatchOption};
ghost use Rattle.spec_commands.specs.BodyOf.{number_of_command};
ghost use Rattle.spec_commands.specs.Tables.{bit_if};
ghost use Rattle.spec_wire.specs.credits.Ids.{counted};
ghost use Rattle.spec_exchange.specs.State.{Message};
ghost use Rattle.spec_crypto.specs.sessions.Nonces.{last_counter, nonce_of};
ghost use Rattle.spec_crypto.specs.sessions.Sealing.{sealed};
ghost use Rattle.spec_crypto.specs.sessions.Signing.{signed};
ghost use Rattle.crypto_sessions.specs.session_keys.Sealing.{HasCipher};
ghost use Rattle.spec_wire.specs.messages.Header.{header_spelling};
ghost use Rattle.spec_world.specs.Ends.{ClientEnd};
ghost use Rattle.spec_world.specs.Sending.{request_header};
ghost use Rattle.client_ends.specs.ends.Shown.{HasEndRoom, ShowsLine, token_of};
ghost use Rattle.client_ends.specs.line_calls.Sending.{CanSend, IsRequest, LineCounts, LineSends};

use crate::ends::{Line, LineError};
use crypto_sessions::{Keys, Signer, seal_in_place, sign};
use std::alloc::{AllocError, Global};
use wire_bytes::{Bytes, Header, Request, write_header};

/// Each request asks for as many credits.
const CREDITS: u16 = 512;

/// SMB2_FLAGS_SIGNED beside the flags that a request has.
#[tactic(auto, unfolding(spec_commands::specs::Tables::bit_if))]
fn flags_if(signs: bool, flags: u32) -> u32
    requires { flags ≤ 0x2000_0000 }
    ensures { result ≡ bit_if signs 8 + flags }
{
    if signs { 8 + flags } else { flags }
}

/// The header that a request goes out with, under this id.
fn header_of(request: &Request, id: u64, signs: bool) -> Header
    requires { request.now.header.flags ≤ 0x2000_0000 }
    ensures { (m : Message) (charge : ℕ) → IsRequest request.now m charge → m.message_id ≡ id
        → result ≡ request_header m charge (number_of_command m.command) signs }
{
    Header {
        charge: request.header.charge,
        status: request.header.status,
        command: request.header.command,
        credits: CREDITS,
        flags: flags_if(signs, request.header.flags),
        next: 0,
        message: id,
        tree: request.header.tree,
        session: request.header.session,
        signature: [0; 16],
    }
}

/// Room for headers, and a body behind it.
fn room(alloc: Global, front: &[u8], body: &[u8]) -> Result<Vec<u8>, AllocError>
    ensures items { IfOk result (λ v. v.items ≡ front.now ++ body.now) }
    ensures size { IfOk result (λ v. vec_len v ≡ length front.now + length body.now) }
{
    let mut out = Vec::new(alloc);
    out.extend_from_slice(front)?;
    out.extend_from_slice(body)?;
    Ok(out)
}

fn put_header(out: &mut [u8], at: usize, header: &Header)
    requires { at + 64 ≤ length out.old }
    ensures { out.new ≡ take at out.old ++ (header_spelling header.now ++ drop (at + 64) out.old) }
{
    out[at..at + 64].copy_from_slice(&write_header(header));
}

fn put_signature(message: &mut [u8], signature: &[u8; 16])
    requires { 64 ≤ length message.old }
    ensures { message.new ≡ take 48 message.old ++ (signature.now ++ drop 64 message.old) }
{
    message[48..64].copy_from_slice(signature);
}

#[tactic(auto, unfolding(spec_crypto::specs::sessions::Signing::signed))]
fn sign_in_place(message: &mut [u8], signer: &Signer)
    requires whole { 64 ≤ length message.old }
    requires short { length message.old < 2 ^ 60 }
    ensures { message.new ≡ signed signer.now message.old }
{
    let signature = sign(signer, message);
    put_signature(message, &signature);
}

/// Puts a header in front of a body, and signs the two.
fn sign_request(frame: &mut [u8], header: &Header, signer: &Signer)
    requires whole { 64 ≤ length frame.old }
    requires short { length frame.old < 2 ^ 60 }
    ensures { frame.new ≡ signed signer.now (header_spelling header.now ++ drop 64 frame.old) }
{
    put_header(frame, 0, header);
    sign_in_place(frame, signer);
}

/// Puts a header in front of a body, and seals the two, in front of which a transform header has room.
fn seal_request(frame: &mut [u8], header: &Header, keys: &Keys, nonce: &[u8; 16])
    requires whole { 116 ≤ length frame.old }
    requires short { length frame.old ≤ 1114112 }
    requires cipher { HasCipher keys.now }
    ensures { frame.new ≡ sealed keys.now true nonce.now (header_spelling header.now ++ drop 116 frame.old) }
{
    put_header(frame, 52, header);
    seal_in_place(keys, true, nonce, frame);
}

fn signed_frame(mut frame: Vec<u8>, header: &Header, signer: &Signer) -> Bytes
    requires whole { 64 ≤ vec_len frame }
    requires short { vec_len frame < 2 ^ 60 }
    ensures { result ≡ signed signer.now (header_spelling header.now ++ drop 64 frame.items) }
{
    sign_request(frame.as_mut_slice(), header, signer);
    Bytes::from_vec(frame)
}

fn sealed_frame(mut frame: Vec<u8>, header: &Header, keys: &Keys, nonce: &[u8; 16]) -> Bytes
    requires whole { 116 ≤ vec_len frame }
    requires short { vec_len frame ≤ 1114112 }
    requires cipher { HasCipher keys.now }
    ensures { result ≡ sealed keys.now true nonce.now (header_spelling header.now ++ drop 116 frame.items) }
{
    seal_request(frame.as_mut_slice(), header, keys, nonce);
    Bytes::from_vec(frame)
}

/// Whether keys are of one of the four ciphers.
pub fn has_cipher(keys: &Keys) -> bool
    ensures yes { result ≡ true → HasCipher keys.now }
    ensures none { result ≡ false → HasCipher keys.now → ⊥ }
{
    let cipher = keys.cipher;
    if cipher < 1 {
        return false;
    }
    if cipher > 4 {
        return false;
    }
    true
}

/// How many credits a request takes.
fn cost_of(request: &Request) -> u32
    ensures { result ≡ counted request.now.header.charge }
{
    u32::from(request.header.charge.max(1))
}

fn send_signed(line: &mut Line, request: &Request) -> Result<Bytes, LineError>
    requires request { CanSend request.now }
    requires room { HasEndRoom line.old }
    requires held { counted request.now.header.charge ≤ line.old.purse.held }
    requires plain { line.old.encrypts ≡ false }
    ensures sends { (n : ClientEnd) (m : Message) (charge : ℕ) → ShowsLine line.old n → IsRequest request.now m charge
        → m.message_id ≡ n.purse.next → LineSends n m charge (token_of request.now.token) line.new result }
    ensures counts { LineCounts line.old line.new result }
{
    let Ok(frame) = room(line.alloc, &[0; 64], request.body.as_slice()) else {
        return Err(LineError::Memory);
    };
    let id = line.spend(request.header.charge, request.token);
    let header = header_of(request, id, true);
    Ok(signed_frame(frame, &header, &line.keys.signing))
}

/// The next nonce, if one is left.
fn next_nonce(line: &mut Line) -> Option<[u8; 16]>
    ensures gives { MatchOption result ((line.old.nonces.counter ≡ last_counter) × (line.new.nonces ≡ line.old.nonces))
        (λ nonce. (line.old.nonces.counter < last_counter) × (nonce ≡ nonce_of line.old.nonces)
        × (line.new.nonces ≡ record line.old.nonces { counter = line.old.nonces.counter + 1 })) }
    ensures same { (line.new.purse ≡ line.old.purse) × (line.new.awaited.items ≡ line.old.awaited.items) × (line.new.keys ≡ line.old.keys)
        × (line.new.encrypts ≡ line.old.encrypts) }
    ensures room { HasEndRoom line.old → HasEndRoom line.new }
{
    match line.nonces.next() {
        Ok(nonce) => Some(nonce),
        Err(_spent) => None,
    }
}

/// The same with keys of a cipher, under the next nonce.
fn send_under(line: &mut Line, request: &Request) -> Result<Bytes, LineError>
    requires request { CanSend request.now }
    requires room { HasEndRoom line.old }
    requires held { counted request.now.header.charge ≤ line.old.purse.held }
    requires seals { line.old.encrypts ≡ true }
    requires cipher { HasCipher line.old.keys }
    ensures sends { (n : ClientEnd) (m : Message) (charge : ℕ) → ShowsLine line.old n → IsRequest request.now m charge
        → m.message_id ≡ n.purse.next → LineSends n m charge (token_of request.now.token) line.new result }
    ensures counts { LineCounts line.old line.new result }
{
    let Ok(frame) = room(line.alloc, &[0; 116], request.body.as_slice()) else {
        return Err(LineError::Memory);
    };
    // Taken only when the memory is there: nothing fails from here on, so that no nonce and no id is spent for a
    // request that doesn't go out.
    match next_nonce(line) {
        Some(nonce) => {
            let id = line.spend(request.header.charge, request.token);
            let header = header_of(request, id, false);
            Ok(sealed_frame(frame, &header, &line.keys, &nonce))
        }
        None => Err(LineError::Spent),
    }
}

fn send_sealed(line: &mut Line, request: &Request) -> Result<Bytes, LineError>
    requires request { CanSend request.now }
    requires room { HasEndRoom line.old }
    requires held { counted request.now.header.charge ≤ line.old.purse.held }
    requires seals { line.old.encrypts ≡ true }
    ensures sends { (n : ClientEnd) (m : Message) (charge : ℕ) → ShowsLine line.old n → IsRequest request.now m charge
        → m.message_id ≡ n.purse.next → LineSends n m charge (token_of request.now.token) line.new result }
    ensures counts { LineCounts line.old line.new result }
{
    let ciphered = has_cipher(&line.keys);
    if ciphered {
        send_under(line, request)
    } else {
        Err(LineError::Spent)
    }
}

/// A request that is paid for and has room.
fn send_paid(line: &mut Line, request: &Request) -> Result<Bytes, LineError>
    requires request { CanSend request.now }
    requires room { HasEndRoom line.old }
    requires held { counted request.now.header.charge ≤ line.old.purse.held }
    ensures sends { (n : ClientEnd) (m : Message) (charge : ℕ) → ShowsLine line.old n → IsRequest request.now m charge
        → m.message_id ≡ n.purse.next → LineSends n m charge (token_of request.now.token) line.new result }
    ensures counts { LineCounts line.old line.new result }
{
    let encrypts = line.encrypts;
    if encrypts {
        send_sealed(line, request)
    } else {
        send_signed(line, request)
    }
}

/// Sends a request: it gets the next message id and asks for 512 credits, its charge is spent, its token waits for a
/// response, and the frame is sealed where the line seals, under its next nonce, else signed. Of the request's header the
/// line takes all but the message id, the credits, NextCommand and the signature. Where credits, nonces or memory don't
/// suffice the line stays as it is.
pub fn send(line: &mut Line, request: &Request) -> Result<Bytes, LineError>
    requires { CanSend request.now }
    ensures sends { (n : ClientEnd) (m : Message) (charge : ℕ) → ShowsLine line.old n → IsRequest request.now m charge
        → m.message_id ≡ n.purse.next → LineSends n m charge (token_of request.now.token) line.new result }
    ensures counts { LineCounts line.old line.new result }
{
    let held = line.credits();
    let cost = cost_of(request);
    if held < cost {
        return Err(LineError::NoCredit(held));
    }
    match line.reserve() {
        Ok(()) => send_paid(line, request),
        Err(_) => Err(LineError::Memory),
    }
}
