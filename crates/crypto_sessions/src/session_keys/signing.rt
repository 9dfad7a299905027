//! Signatures of messages.
ghost use Rattle.std.specs.Prelude.{◌≡◌, ◌≤◌, ◌<◌, ◌^◌, ◌++◌, length, take, replicate};
ghost use Rattle.spec_crypto.specs.sessions.Signing.{role, signing_nonce, signature, verifies};
ghost use Rattle.spec_wire.specs.messages.Places.{bytes_at};

use crypto_ciphers::{Aes, cmac_joined, gmac_joined, is_same};
use spec_crypto::Signer;

const CANCEL: u16 = 12;

/// The header with zeros for its signature.
fn unsigned_header(message: &[u8]) -> [u8; 64]
    requires { 64 ≤ length message.now }
    ensures { result ≡ take 48 message.now ++ replicate 16 0 }
{
    let mut header = [0; 64];
    header[..48].copy_from_slice(&message[..48]);
    header
}

/// Who sends what (MS-SMB2 3.1.4.1): 1 of a server's message, and 2 more of a CANCEL.
fn role_of(message: &[u8]) -> u32
    requires { 64 ≤ length message.now }
    ensures same { result ≡ role message.now }
    ensures small { result ≤ 3 }
{
    let sent = (message[16] % 2) as u32;
    let command = u16::from_le_bytes([message[12], message[13]]);
    if command == CANCEL { sent + 2 } else { sent }
}

/// GMAC's nonce: the message id, and who sends what in four bytes.
#[tactic(auto, using(wire_bytes::proofs::byte_lists::Endian::le_4), unfolding(spec_wire::specs::messages::Places::bytes_at))]
fn nonce_of(message: &[u8]) -> [u8; 12]
    requires { 64 ≤ length message.now }
    ensures { result ≡ signing_nonce message.now }
{
    let mut nonce = [0; 12];
    nonce[..8].copy_from_slice(&message[24..32]);
    nonce[8..].copy_from_slice(&role_of(message).to_le_bytes());
    nonce
}

/// The Signature field.
#[tactic(auto, unfolding(spec_wire::specs::messages::Places::bytes_at))]
fn signature_of(message: &[u8]) -> [u8; 16]
    requires { 64 ≤ length message.now }
    ensures { result ≡ bytes_at 16 message.now 48 }
{
    let mut signature = [0; 16];
    signature.copy_from_slice(&message[48..64]);
    signature
}

/// The signature of a message of 64 bytes at least, whatever stands in its Signature field: AES-GMAC for the algorithm
/// 2, else AES-CMAC (MS-SMB2 3.1.4.1). It takes no memory.
#[tactic(auto, unfolding(spec_crypto::specs::sessions::Signing::signature))]
pub fn sign(signer: &Signer, message: &[u8]) -> [u8; 16]
    requires whole { 64 ≤ length message.now }
    requires short { length message.now < 2 ^ 60 }
    ensures { result ≡ signature signer.now message.now }
{
    let aes = Aes::new_128(&signer.key);
    // Only the header is copied, to have zeros for its signature; the rest is read where it stands.
    let header = unsigned_header(message);
    let rest = &message[64..];
    if signer.algorithm == 2 {
        gmac_joined(&aes, &nonce_of(message), &header, rest)
    } else {
        cmac_joined(&aes, &header, rest)
    }
}

/// Whether the Signature field of a message of 64 bytes at least is its signature. It takes no memory.
#[tactic(auto, using(crate::proofs::session_keys::Halves::tested), unfolding(spec_crypto::specs::sessions::Signing::verifies))]
pub fn verify(signer: &Signer, message: &[u8]) -> bool
    requires whole { 64 ≤ length message.now }
    requires short { length message.now < 2 ^ 60 }
    ensures { result ≡ verifies signer.now message.now }
{
    is_same(&signature_of(message), &sign(signer, message))
}
