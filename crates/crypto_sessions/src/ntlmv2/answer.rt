//! The client's side: the first message, and the answer to a challenge.
ghost use Rattle.std.specs.Prelude.{◌≡◌, ◌↔◌, IsTrue, ◌++◌, take, replicate, IfOk};
ghost use Rattle.spec_crypto.specs.tokens.Formulas.{temp};
ghost use Rattle.spec_crypto.specs.tokens.Answer.{first_message, time_in, client_info, answered};
ghost use Rattle.crypto_sessions.specs.ntlmv2.Views.{type2_view, credentials_view};
ghost use Rattle.crypto_sessions.specs.ntlmv2.Responses.{IsResponse, IsResponseShort, answer_value};
ghost use Rattle.spec_crypto.specs.tokens.Messages.{type3_spelling};

use crate::ntlmv2::formulas::{base_key, exchanged_key_of, mic, ntowf, proof};
use crate::ntlmv2::messages::{Type2, Type3, write_type1, write_type3};
use crate::ntlmv2::pairs::{end_of, pair_of};
use crate::ntlmv2::text::utf16_of;
use spec_crypto::Type1;
use std::alloc::{AllocError, Global};
use wire_bytes::{Bytes, Out};

const CLIENT_FLAGS: u32 = 0x6008_0215;

/// A user, and the random bytes of one logon.
#[derive(Clone, Copy, Debug)]
pub struct Credentials<'a> {
    pub user: &'a str,
    pub password: &'a str,
    pub domain: &'a str,
    pub challenge: [u8; 8],
    /// The key that is exchanged.
    pub key: [u8; 16],
}

/// The type 1 of this client, 40 bytes.
#[tactic(auto, unfolding(spec_crypto::specs::tokens::Answer::first_message))]
pub fn first_message(alloc: Global) -> Result<Bytes, AllocError>
    ensures { IfOk result (λ b. b ≡ first_message) }
{
    write_type1(
        alloc,
        &Type1 {
            flags: CLIENT_FLAGS,
        },
    )
}

/// The first eight bytes of a value, with zeros behind a shorter one.
#[tactic(auto, using(crate::proofs::ntlmv2::Sizes::filled, crate::proofs::ntlmv2::Sizes::long_enough))]
fn eight_of(value: &[u8]) -> [u8; 8]
    ensures { result ≡ take 8 (value.now ++ replicate 8 0) }
{
    let mut front = [0; 8];
    if value.len() < 8 {
        front[..value.len()].copy_from_slice(value);
        return front;
    }
    front.copy_from_slice(&value[..8]);
    front
}

/// The time in the server's pair 7, zeros where there is none.
fn time_of(info: &[u8]) -> [u8; 8]
    ensures { result ≡ time_in info.now }
{
    match pair_of(7, info) {
        None => [0; 8],
        Some(value) => eight_of(value),
    }
}

/// What the proof is of, behind the server's challenge.
#[tactic(auto, using(crate::proofs::ntlmv2::Info::temp_spelled), unfolding(spec_crypto::specs::tokens::Answer::client_info))]
fn temp_of(alloc: Global, client: &Credentials<'_>, info: &[u8]) -> Result<Bytes, AllocError>
    ensures { IfOk result (λ b. b ≡ temp (time_in info.now) client.now.challenge (client_info info.now)) }
{
    let mut out = Out::new(alloc);
    out.put_u16(0x0101)?;
    out.put_zeros(6)?;
    out.put_slice(&time_of(info))?;
    out.put_slice(&client.challenge)?;
    out.put_zeros(4)?;
    out.put_slice(&info[..end_of(info)])?;
    out.put_u16(6)?;
    out.put_u16(4)?;
    out.put_u32(2)?;
    out.put_u32(0)?;
    out.put_zeros(4)?;
    Ok(out.finish())
}

/// What a type 3 tells of a user: the response to a challenge (MS-NLMP 2.2.2.8), the names in UTF-16, and the key
/// that is exchanged, enciphered.
#[derive(Drop)]
struct Response {
    nt: Bytes,
    domain: Bytes,
    user: Bytes,
    session_key: [u8; 16],
}

fn response_to(
    alloc: Global,
    client: &Credentials<'_>,
    second: &Type2<'_>,
) -> Result<Response, AllocError>
    ensures { IfOk result (λ r. IsResponse (credentials_view client.now) (type2_view second.now) r) }
{
    let key = ntowf(alloc, client.password, client.user, client.domain)?;
    let temp = temp_of(alloc, client, second.target_info)?;
    let shown = proof(&key, &second.challenge, temp.as_slice());
    let mut nt = Bytes::from_slice(alloc, &shown)?;
    nt.extend(temp.as_slice())?;
    let domain = utf16_of(alloc, client.domain)?;
    let user = utf16_of(alloc, client.user)?;
    Ok(Response {
        nt,
        domain,
        user,
        session_key: exchanged_key_of(&base_key(&key, &shown), &client.key),
    })
}

/// The type 3 of a response, with this MIC.
fn write_answer(alloc: Global, response: &Response, mic: [u8; 16]) -> Result<Bytes, AllocError>
    requires { IsResponseShort response.now }
    ensures { IfOk result (λ b. b ≡ type3_spelling (answer_value response.now mic)) }
{
    write_type3(
        alloc,
        &Type3 {
            flags: CLIENT_FLAGS,
            lm: &[0; 24],
            nt: response.nt.as_slice(),
            domain: response.domain.as_slice(),
            user: response.user.as_slice(),
            workstation: &[],
            session_key: &response.session_key,
            mic,
        },
    )
}

/// Each part fits its length field.
fn has_room_for(response: &Response) -> bool
    ensures { IsTrue result ↔ IsResponseShort response.now }
{
    response.nt.len() < 65_536 && response.domain.len() < 65_536 && response.user.len() < 65_536
}

/// The type 3 that answers a type 2 of these bytes and this value, with a MIC over all three messages
/// (MS-NLMP 3.1.5.1.2). `None`, exactly where the response or a name in UTF-16 has 65,536 bytes or more, which its length
/// field can't tell.
#[tactic(auto, unfolding(spec_crypto::specs::tokens::Answer::answered))]
pub fn answer_to(
    alloc: Global,
    client: &Credentials<'_>,
    first: &[u8],
    second_bytes: &[u8],
    second: &Type2<'_>,
) -> Result<Option<Bytes>, AllocError>
    ensures { IfOk result (λ o. o ≡ answered (credentials_view client.now) first.now second_bytes.now (type2_view second.now)) }
{
    let response = response_to(alloc, client, second)?;
    if !has_room_for(&response) {
        return Ok(None);
    }
    // Written twice, because the MIC is over the message with zeros in its place.
    let unsigned = write_answer(alloc, &response, [0; 16])?;
    let code = mic(alloc, &client.key, first, second_bytes, unsigned.as_slice())?;
    let answer = write_answer(alloc, &response, code)?;
    Ok(Some(answer))
}
