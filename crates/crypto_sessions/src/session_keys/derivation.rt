//! Keys derived from a logon's exported key and the value of the preauthentication chain.
ghost use Rattle.std.specs.Prelude.{◌≡◌, ◌||◌, ◌==◌};
ghost use Rattle.spec_crypto.specs.ciphers.Kdf.{derived};
ghost use Rattle.spec_crypto.specs.sessions.Derivation.{signing_key, to_server_key, to_client_key, cipher_bits, known, keys_of, bound_keys};

use crypto_ciphers::kdf;
use spec_crypto::{Chosen, Keys, Signer};

const SIGNING_LABEL: &[u8] = b"SMBSigningKey\0";

const TO_SERVER_LABEL: &[u8] = b"SMBC2SCipherKey\0";

const TO_CLIENT_LABEL: &[u8] = b"SMBS2CCipherKey\0";

#[tactic(auto, using(crate::proofs::session_keys::Halves::half_is), unfolding(spec_crypto::specs::sessions::Derivation::signing_key))]
fn signing_key_of(base: &[u8; 16], chain: &[u8; 64]) -> [u8; 16]
    ensures { result ≡ signing_key base.now chain.now }
{
    let derived = kdf(base, SIGNING_LABEL, chain, 128);
    let mut key = [0; 16];
    key.copy_from_slice(&derived[..16]);
    key
}

fn bits_of(cipher: u16) -> u32
    ensures { result ≡ cipher_bits cipher }
{
    if cipher == 3 || cipher == 4 { 256 } else { 128 }
}

#[tactic(auto, unfolding(spec_crypto::specs::sessions::Derivation::to_server_key))]
fn to_server_of(base: &[u8; 16], chain: &[u8; 64], cipher: u16) -> [u8; 32]
    ensures { result ≡ to_server_key base.now chain.now cipher }
{
    kdf(base, TO_SERVER_LABEL, chain, bits_of(cipher))
}

#[tactic(auto, unfolding(spec_crypto::specs::sessions::Derivation::to_client_key))]
fn to_client_of(base: &[u8; 16], chain: &[u8; 64], cipher: u16) -> [u8; 32]
    ensures { result ≡ to_client_key base.now chain.now cipher }
{
    kdf(base, TO_CLIENT_LABEL, chain, bits_of(cipher))
}

/// A cipher that isn't known counts as none.
fn known_of(cipher: u16) -> u16
    ensures { result ≡ known cipher }
{
    if cipher >= 1 && cipher <= 4 {
        cipher
    } else {
        0
    }
}

// A free function: as a constructor of `Keys` it would stand in `spec_crypto`, and a change of it would have each
// definition and law above proved anew.
/// The keys of a session on its first channel, from the exported key of its logon and the value of the chain behind the
/// second SESSION_SETUP request (MS-SMB2 3.2.5.3, 3.3.5.5.3). It takes no memory.
pub fn derive(base: &[u8; 16], chain: &[u8; 64], chosen: &Chosen, session: u64) -> Keys
    ensures { result ≡ keys_of base.now chain.now chosen.now.cipher chosen.now.signing session }
{
    Keys {
        signing: Signer {
            key: signing_key_of(base, chain),
            algorithm: chosen.signing,
        },
        to_server: to_server_of(base, chain, chosen.cipher),
        to_client: to_client_of(base, chain, chosen.cipher),
        cipher: known_of(chosen.cipher),
        session,
    }
}

/// The keys of a further channel: the session's, with a signing key from the binding's logon and chain. It takes no memory.
pub fn bind(base: &[u8; 16], chain: &[u8; 64], session: &Keys) -> Keys
    ensures { result ≡ bound_keys base.now chain.now session.now }
{
    Keys {
        signing: Signer {
            key: signing_key_of(base, chain),
            algorithm: session.signing.algorithm,
        },
        to_server: session.to_server,
        to_client: session.to_client,
        cipher: session.cipher,
        session: session.session,
    }
}
