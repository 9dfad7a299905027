//! Sealed messages.
ghost use Rattle.std.specs.Prelude.{◌≡◌, ◌≤◌, ◌<◌, ◌+◌, ◌++◌, IfOk, MatchResult, length, take, drop, replicate, Some, None};
ghost use Rattle.spec_crypto.specs.sessions.Sealing.{words_of, is_gcm, key_for, added_of, ciphertext, tag_of, protocol};
ghost use Rattle.spec_crypto.specs.sessions.Sealing.{sealed, frame_fault, unsealed};
ghost use Rattle.spec_wire.specs.messages.Places.{bytes_at};
ghost use Rattle.crypto_sessions.specs.session_keys.Sealing.{HasCipher, SealsBehind};
ghost use Rattle.crypto_sessions.specs.session_keys.Unsealing.{UnsealingTells, ShowsText, Unseals, UnsealsInPlace};

use crypto_ciphers::{
    Aes, ccm_open_in_place, ccm_seal_in_place, gcm_open_in_place, gcm_seal_in_place,
};
use spec_crypto::{Keys, SealError};
use std::alloc::{AllocError, Global};
use wire_bytes::{Bytes, Cursor, FixedOut, Short};

/// FD 'S' 'M' 'B'
const PROTOCOL: [u8; 4] = [0xfd, b'S', b'M', b'B'];

/// The bytes of a transform header.
const HEADER: usize = 52;

/// The most bytes of a message that is sealed.
const MOST: u32 = 1_114_060;

// Expanded at each call, because keys are kept as plain values without their schedules. Short messages pay some tenth
// for it.
#[tactic(auto, unfolding(spec_crypto::specs::sessions::Sealing::words_of))]
fn aes_of(cipher: u16, key: &[u8; 32]) -> Aes
    ensures { result ≡ words_of cipher key.now }
{
    if cipher == 3 || cipher == 4 {
        return Aes::new_256(key);
    }
    let mut short = [0; 16];
    short.copy_from_slice(&key[..16]);
    Aes::new_128(&short)
}

fn is_gcm_of(cipher: u16) -> bool
    ensures { result ≡ is_gcm cipher }
{
    cipher == 2 || cipher == 4
}

fn key_of(keys: &Keys, from_client: bool) -> &[u8; 32]
    ensures { result.now ≡ key_for keys.now from_client }
{
    if from_client {
        &keys.to_server
    } else {
        &keys.to_client
    }
}

/// Bytes 20 to 51 of the transform header.
fn added(nonce: &[u8; 16], size: u32, session: u64) -> [u8; 32]
    ensures { result ≡ added_of nonce.now size session }
{
    let mut out = FixedOut::<32>::new();
    out.put_slice(nonce);
    out.put_u32(size);
    out.put_u16(0);
    out.put_u16(1);
    out.put_u64(session);
    out.finish()
}

fn gcm_nonce(nonce: &[u8]) -> [u8; 12]
    requires { 12 ≤ length nonce.now }
    ensures { result ≡ take 12 nonce.now }
{
    let mut front = [0; 12];
    front.copy_from_slice(&nonce[..12]);
    front
}

/// Seals a text where it stands, and gives its tag.
#[tactic(auto, unfolding(spec_crypto::specs::sessions::Sealing::ciphertext, spec_crypto::specs::sessions::Sealing::tag_of))]
fn hide(
    cipher: u16,
    key: &[u8; 32],
    nonce: &[u8; 16],
    added: &[u8; 32],
    text: &mut [u8],
) -> [u8; 16]
    requires { length text.old ≤ 1114060 }
    ensures hidden { text.new ≡ ciphertext cipher key.now nonce.now text.old }
    ensures tag { result ≡ tag_of cipher key.now nonce.now added.now text.old text.new }
{
    let aes = aes_of(cipher, key);
    if is_gcm_of(cipher) {
        gcm_seal_in_place(&aes, &gcm_nonce(nonce), added, text)
    } else {
        ccm_seal_in_place(&aes, &nonce[..11], added, text, 16)
    }
}

/// Seals the text behind the 52 bytes of a transform header, and puts its tag into the header.
fn seal_frame(cipher: u16, key: &[u8; 32], nonce: &[u8; 16], added: &[u8; 32], frame: &mut [u8])
    requires whole { 52 ≤ length frame.old }
    requires short { length frame.old ≤ 1114112 }
    ensures { SealsBehind cipher key.now nonce.now added.now frame.old frame.new }
{
    let tag = hide(cipher, key, nonce, added, &mut frame[HEADER..]);
    frame[4..20].copy_from_slice(&tag);
}

/// A message of at most 1,114,060 bytes, sealed under a nonce that is given once (MS-SMB2 3.1.4.3). The keys have a cipher.
/// The message is copied once.
pub fn seal(
    alloc: Global,
    keys: &Keys,
    from_client: bool,
    nonce: &[u8; 16],
    message: &[u8],
) -> Result<Bytes, AllocError>
    requires cipher { HasCipher keys.now }
    requires size { length message.now ≤ 1114060 }
    ensures { IfOk result (λ b. b ≡ sealed keys.now from_client nonce.now message.now) }
{
    let added = added(nonce, message.len() as u32, keys.session);
    let key = key_of(keys, from_client);
    let mut frame = Vec::with_capacity(alloc, HEADER + message.len())?;
    frame.extend_from_slice(&PROTOCOL)?;
    frame.extend_from_slice(&[0; 16])?;
    frame.extend_from_slice(&added)?;
    frame.extend_from_slice(message)?;
    seal_frame(keys.cipher, key, nonce, &added, frame.as_mut_slice());
    Ok(Bytes::from_vec(frame))
}

/// A transform header whose tag isn't there yet.
fn header_with(added: &[u8; 32]) -> [u8; 52]
    ensures { result ≡ (protocol ++ replicate 16 0) ++ added.now }
{
    let mut out = FixedOut::<52>::new();
    out.put_slice(&PROTOCOL);
    out.put_slice(&[0; 16]);
    out.put_slice(added);
    out.finish()
}

/// Seals a message of at most 1,114,060 bytes where it stands: the 52 bytes in front of it, whatever they were, become
/// its transform header (MS-SMB2 3.1.4.3). The nonce is given once, and the keys have a cipher. It takes no memory.
pub fn seal_in_place(keys: &Keys, from_client: bool, nonce: &[u8; 16], frame: &mut [u8])
    requires cipher { HasCipher keys.now }
    requires whole { 52 ≤ length frame.old }
    requires short { length frame.old ≤ 1114112 }
    ensures { frame.new ≡ sealed keys.now from_client nonce.now (drop 52 frame.old) }
{
    let size = (frame.len() - HEADER) as u32;
    let added = added(nonce, size, keys.session);
    let header = header_with(&added);
    let key = key_of(keys, from_client);
    frame[..HEADER].copy_from_slice(&header);
    seal_frame(keys.cipher, key, nonce, &added, frame);
}

/// What a transform header tells.
#[derive(Clone, Copy)]
struct Transform {
    protocol: [u8; 4],
    tag: [u8; 16],
    nonce: [u8; 16],
    size: u32,
    session: u64,
}

fn transform_in(frame: &[u8]) -> Result<Transform, Short>
    ensures { MatchResult result (λ t. UnsealingTells frame.now t) (λ e. length frame.now < 52) }
{
    let mut cursor = Cursor::new(frame);
    let protocol = cursor.get_array::<4>()?;
    let tag = cursor.get_array::<16>()?;
    let nonce = cursor.get_array::<16>()?;
    let size = cursor.get_u32()?;
    let _reserved = cursor.get_u16()?;
    // Passed over, though MS-SMB2 drops the connection at values other than 1: the tag covers them, and the keys tell
    // the algorithm.
    let _flags = cursor.get_u16()?;
    let session = cursor.get_u64()?;
    Ok(Transform {
        protocol,
        tag,
        nonce,
        size,
        session,
    })
}

/// The transform header of a frame of this session, or the first cause for which the frame isn't looked into.
#[tactic(auto, unfolding(spec_crypto::specs::sessions::Sealing::frame_fault, spec_crypto::specs::sessions::Sealing::is_sealed))]
fn transform_of(frame: &[u8], session: u64) -> Result<Transform, SealError>
    ensures { MatchResult result (λ t. (frame_fault session frame.now ≡ None) × (length frame.now ≤ 1114112) × UnsealingTells
        frame.now t) (λ e. frame_fault session frame.now ≡ Some e) }
{
    let transform = match transform_in(frame) {
        Ok(transform) => transform,
        Err(_short) => return Err(SealError::NotSealed),
    };
    if transform.protocol != PROTOCOL {
        return Err(SealError::NotSealed);
    }
    if transform.size > MOST || transform.size as usize + HEADER != frame.len() {
        return Err(SealError::BadSize(transform.size));
    }
    if transform.session != session {
        return Err(SealError::OtherSession(transform.session));
    }
    Ok(transform)
}

/// The additional data in a transform header.
fn added_in(frame: &[u8]) -> [u8; 32]
    requires { 52 ≤ length frame.now }
    ensures { result ≡ bytes_at 32 frame.now 20 }
{
    let mut added = [0; 32];
    added.copy_from_slice(&frame[20..HEADER]);
    added
}

/// Whether the tag is the one of a ciphertext and its additional data: the ciphertext then becomes its text, and else
/// stays as it is.
fn show(
    cipher: u16,
    key: &[u8; 32],
    transform: &Transform,
    added: &[u8; 32],
    text: &mut [u8],
) -> bool
    requires { length text.old ≤ 1114060 }
    ensures { ShowsText cipher key.now transform.now.nonce added.now transform.now.tag text.old text.new result }
{
    let aes = aes_of(cipher, key);
    let nonce = &transform.nonce;
    if is_gcm_of(cipher) {
        gcm_open_in_place(&aes, &gcm_nonce(nonce), added, &transform.tag, text)
    } else {
        ccm_open_in_place(&aes, &nonce[..11], added, &transform.tag, text)
    }
}

/// The message of a sealed frame, or the first of `NotSealed`, `BadSize`, `OtherSession` and `BadTag` that applies
/// (MS-SMB2 3.3.5.2.1.1). The keys have a cipher. The message is copied once.
#[tactic(auto, unfolding(spec_crypto::specs::sessions::Sealing::unsealed_by))]
pub fn unseal(
    alloc: Global,
    keys: &Keys,
    from_client: bool,
    frame: &[u8],
) -> Result<Bytes, SealError>
    requires { HasCipher keys.now }
    ensures { Unseals (unsealed keys.now from_client frame.now) result }
{
    let transform = transform_of(frame, keys.session)?;
    let key = key_of(keys, from_client);
    let added = added_in(frame);
    // Copied only after the header was judged: a frame that isn't this session's takes no memory.
    let mut text = Vec::from_slice(alloc, &frame[HEADER..])?;
    let shows = show(keys.cipher, key, &transform, &added, text.as_mut_slice());
    if shows {
        Ok(Bytes::from_vec(text))
    } else {
        Err(SealError::BadTag)
    }
}

/// Unseals a frame where it stands: the message then stands behind the 52 bytes of its transform header, which stay.
/// The first of `NotSealed`, `BadSize`, `OtherSession` and `BadTag` that applies leaves the frame as it was
/// (MS-SMB2 3.3.5.2.1.1). The keys have a cipher. It takes no memory.
#[tactic(auto, unfolding(spec_crypto::specs::sessions::Sealing::unsealed_by))]
pub fn unseal_in_place(keys: &Keys, from_client: bool, frame: &mut [u8]) -> Result<(), SealError>
    requires { HasCipher keys.now }
    ensures { UnsealsInPlace (unsealed keys.now from_client frame.old) frame.old frame.new result }
{
    let transform = transform_of(frame, keys.session)?;
    let key = key_of(keys, from_client);
    let added = added_in(frame);
    let shows = show(keys.cipher, key, &transform, &added, &mut frame[HEADER..]);
    if shows {
        Ok(())
    } else {
        Err(SealError::BadTag)
    }
}
