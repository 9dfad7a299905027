//! What a server chooses from the lists of a client's contexts (MS-SMB2 3.3.5.4).
ghost use Rattle.std.specs.Prelude.{◌≡◌};
ghost use Rattle.spec_crypto.specs.sessions.Choice.{is_cipher, is_signing, cipher_of, signing_of, choice};

use crate::negotiate_contexts::offer::Offer;
use spec_crypto::{ChooseError, Chosen};

fn is_known_cipher(cipher: u16) -> bool
    ensures { result ≡ is_cipher cipher }
{
    cipher >= 1 && cipher <= 4
}

fn is_known_signing(signing: u16) -> bool
    ensures { result ≡ is_signing signing }
{
    signing == 1 || signing == 2
}

/// The first cipher of the list that is known, or 0.
#[tactic(auto, using(crate::proofs::negotiate_contexts::Firsts::cipher_passed, crate::proofs::negotiate_contexts::Firsts::cipher_here, crate::proofs::negotiate_contexts::Firsts::cipher_none))]
fn cipher_in(ciphers: &[u16]) -> u16
    ensures { result ≡ cipher_of ciphers.now }
{
    'ciphers: for k in 0..ciphers.len() {
        if is_known_cipher(ciphers[k]) {
            return ciphers[k];
        }
    }
    0
}

/// The first signing algorithm of the list that is known.
#[tactic(auto, using(crate::proofs::negotiate_contexts::Firsts::signing_passed, crate::proofs::negotiate_contexts::Firsts::signing_here, crate::proofs::negotiate_contexts::Firsts::signing_none))]
fn signing_in(signings: &[u16]) -> Option<u16>
    ensures { result ≡ signing_of signings.now }
{
    'signings: for k in 0..signings.len() {
        if is_known_signing(signings[k]) {
            return Some(signings[k]);
        }
    }
    None
}

/// What a server chooses of an offer: the first cipher of its list that is known, or 0, and the first known signing
/// algorithm, or AES-CMAC, which then isn't told. `NoPreauth`, exactly where there is no preauthentication context, and
/// `NoHash`, exactly where it doesn't name SHA-512 (MS-SMB2 3.3.5.4). It takes no memory.
pub fn choose(offer: &Offer) -> Result<Chosen, ChooseError>
    ensures { result ≡ choice offer.now.preauth offer.now.sha512 offer.now.ciphers offer.now.signings }
{
    if !offer.preauth {
        return Err(ChooseError::NoPreauth);
    }
    if !offer.sha512 {
        return Err(ChooseError::NoHash);
    }
    let cipher = cipher_in(offer.ciphers.as_slice());
    match signing_in(offer.signings.as_slice()) {
        None => Ok(Chosen {
            cipher,
            signing: 1,
            signing_told: false,
        }),
        Some(signing) => Ok(Chosen {
            cipher,
            signing,
            signing_told: true,
        }),
    }
}
