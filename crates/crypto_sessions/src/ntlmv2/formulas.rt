//! NTLMv2's formulas.
ghost use Rattle.std.specs.Prelude.{◌≡◌, ◌++◌, take, drop, IfOk, OnOk};
ghost use Rattle.md5.specs.Md5.{md5};
ghost use Rattle.spec_crypto.specs.tokens.Formulas.{ntowf_in, ntowf, proof, base_key, exchanged_key, without_mic, mic, sign_key};
ghost use Rattle.spec_crypto.specs.tokens.Formulas.{seal_key, checksum, hidden_checksum, mech_list_mic};

use crate::ntlmv2::text::{upper_of, utf16_of};
use crypto_ciphers::{Rc4, hmac_md5, md4};
use md5::{Digest, Md5};
use std::alloc::{AllocError, Global};
use wire_bytes::Bytes;

/// NTOWFv2 with the domain in UTF-16 as it stands in a message.
#[tactic(auto, unfolding(spec_crypto::specs::tokens::Formulas::ntowf_in))]
pub(crate) fn ntowf_with(
    alloc: Global,
    password: &str,
    user: &str,
    domain: &[u8],
) -> Result<[u8; 16], AllocError>
    ensures { IfOk result (λ key. key ≡ ntowf_in password.now user.now domain.now) }
{
    let password = utf16_of(alloc, password)?;
    let upper = upper_of(alloc, user)?;
    let user = utf16_of(alloc, upper.as_str())?;
    Ok(hmac_md5(&md4(password.as_slice()), user.as_slice(), domain))
}

/// NTOWFv2 (MS-NLMP 3.3.2).
pub fn ntowf(
    alloc: Global,
    password: &str,
    user: &str,
    domain: &str,
) -> Result<[u8; 16], AllocError>
    ensures { IfOk result (λ key. key ≡ ntowf password.now user.now domain.now) }
{
    let domain = utf16_of(alloc, domain)?;
    ntowf_with(alloc, password, user, domain.as_slice())
}

/// NTProofStr (MS-NLMP 3.3.2), over the server's challenge and what stands behind the proof in the response.
#[tactic(auto, unfolding(spec_crypto::specs::tokens::Formulas::proof))]
pub fn proof(ntowf: &[u8; 16], challenge: &[u8; 8], temp: &[u8]) -> [u8; 16]
    ensures { result ≡ proof ntowf.now challenge.now temp.now }
{
    hmac_md5(ntowf, challenge, temp)
}

/// SessionBaseKey (MS-NLMP 3.3.2).
#[tactic(auto, unfolding(spec_crypto::specs::tokens::Formulas::base_key))]
pub fn base_key(ntowf: &[u8; 16], proof: &[u8; 16]) -> [u8; 16]
    ensures { result ≡ base_key ntowf.now proof.now }
{
    hmac_md5(ntowf, proof, &[])
}

/// A key of 16 bytes under another one, both ways (MS-NLMP 3.1.5.1.2).
#[tactic(auto, unfolding(spec_crypto::specs::tokens::Formulas::exchanged_key))]
pub(crate) fn exchanged_key_of(base: &[u8; 16], key: &[u8; 16]) -> [u8; 16]
    ensures { result ≡ exchanged_key base.now key.now }
{
    let mut hidden = *key;
    Rc4::new(base).apply(&mut hidden);
    hidden
}

/// What stands before the MIC of a type 3.
fn before_mic(third: &[u8]) -> &[u8]
    ensures { result.now ≡ take 72 third.now }
{
    if third.len() < 72 {
        return third;
    }
    &third[..72]
}

/// What stands behind the MIC of a type 3.
fn behind_mic(third: &[u8]) -> &[u8]
    ensures { result.now ≡ drop 88 third.now }
{
    if third.len() < 88 {
        return &third[..0];
    }
    &third[88..]
}

/// A type 3 with zeros for its MIC.
fn put_without_mic(out: &mut Bytes, third: &[u8]) -> Result<(), AllocError>
    ensures { OnOk result (out.new ≡ out.old ++ without_mic third.now) }
{
    out.extend(before_mic(third))?;
    out.extend(&[0; 16])?;
    out.extend(behind_mic(third))
}

/// The MIC over the three messages, the third with zeros in its place (MS-NLMP 3.1.5.1.2).
#[tactic(auto, unfolding(spec_crypto::specs::tokens::Formulas::mic))]
pub fn mic(
    alloc: Global,
    key: &[u8; 16],
    t1: &[u8],
    t2: &[u8],
    t3: &[u8],
) -> Result<[u8; 16], AllocError>
    ensures { IfOk result (λ code. code ≡ mic key.now t1.now t2.now t3.now) }
{
    let mut behind = Bytes::from_slice(alloc, t2)?;
    put_without_mic(&mut behind, t3)?;
    Ok(hmac_md5(key, t1, behind.as_slice()))
}

fn digest_of(key: &[u8; 16], text: &[u8]) -> [u8; 16]
    ensures { result ≡ md5 (key.now ++ text.now) }
{
    let mut hasher = Md5::new();
    hasher.update(key.as_slice());
    hasher.update(text);
    hasher.finalize()
}

fn sign_key_of(key: &[u8; 16], from_client: bool) -> [u8; 16]
    ensures { result ≡ sign_key key.now from_client }
{
    if from_client {
        digest_of(
            key,
            b"session key to client-to-server signing key magic constant\0",
        )
    } else {
        digest_of(
            key,
            b"session key to server-to-client signing key magic constant\0",
        )
    }
}

fn seal_key_of(key: &[u8; 16], from_client: bool) -> [u8; 16]
    ensures { result ≡ seal_key key.now from_client }
{
    if from_client {
        digest_of(
            key,
            b"session key to client-to-server sealing key magic constant\0",
        )
    } else {
        digest_of(
            key,
            b"session key to server-to-client sealing key magic constant\0",
        )
    }
}

/// The first 8 bytes of the HMAC over the sequence number 0 and the list.
#[tactic(auto, unfolding(spec_wire::specs::messages::Places::le))]
fn checksum_of(key: &[u8; 16], from_client: bool, list: &[u8]) -> [u8; 8]
    ensures { result ≡ checksum key.now from_client list.now }
{
    let code = hmac_md5(&sign_key_of(key, from_client), &[0; 4], list);
    let mut front = [0; 8];
    front.copy_from_slice(&code[..8]);
    front
}

fn hidden_checksum_of(key: &[u8; 16], from_client: bool, exchanged: bool, list: &[u8]) -> [u8; 8]
    ensures { result ≡ hidden_checksum key.now from_client exchanged list.now }
{
    let mut code = checksum_of(key, from_client, list);
    if exchanged {
        Rc4::new(&seal_key_of(key, from_client)).apply(&mut code);
    }
    code
}

/// The mechListMIC over a list of mechanisms (MS-NLMP 3.4.4.2): version 1, the checksum, enciphered where a key was
/// exchanged, and the sequence number 0. It takes no memory.
#[tactic(auto, unfolding(spec_crypto::specs::tokens::Formulas::mech_list_mic, spec_wire::specs::messages::Places::le))]
pub fn sign_mech_list(key: &[u8; 16], from_client: bool, exchanged: bool, list: &[u8]) -> [u8; 16]
    ensures { result ≡ mech_list_mic key.now from_client exchanged list.now }
{
    let mut signature = [1, 0, 0, 0, 0, 0, 0, 0, 0, 0, 0, 0, 0, 0, 0, 0];
    signature[4..12].copy_from_slice(&hidden_checksum_of(key, from_client, exchanged, list));
    signature
}
