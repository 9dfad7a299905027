//! Tokens written, with the shortest lengths.
ghost use Rattle.std.specs.Prelude.{◌≡◌, ◌<◌, ◌^◌, ◌++◌, length, OnOk, IfOk};
ghost use Rattle.spec_crypto.specs.tokens.Der.{length_bytes, spelled};
ghost use Rattle.spec_crypto.specs.tokens.Spnego.{octets_spelling, state_spelling, mech_spelling, init_fields_spelling};
ghost use Rattle.spec_crypto.specs.tokens.Spnego.{init_spelling, resp_fields_spelling, resp_spelling, IsWritableInit};
ghost use Rattle.spec_crypto.specs.tokens.Spnego.{IsWritableResp};
ghost use Rattle.crypto_sessions.specs.spnego.Views.{init_view, resp_view};

use crate::spnego::fields::NTLMSSP;
use crate::spnego::token::{InitToken, RespToken};
use std::alloc::{AllocError, Global};
use wire_bytes::Bytes;

const SPNEGO: [u8; 6] = [0x2b, 6, 1, 5, 5, 2];

/// Adds a length in its shortest form.
fn put_length(out: &mut Bytes, count: usize) -> Result<(), AllocError>
    requires { count < 2 ^ 32 }
    ensures { OnOk result (out.new ≡ out.old ++ length_bytes count) }
{
    if count < 0x80 {
        out.extend(&[count as u8])
    } else if count < 0x100 {
        out.extend(&[0x81, count as u8])
    } else if count < 0x1_0000 {
        out.extend(&[0x82, (count / 256) as u8, (count % 256) as u8])
    } else if count < 0x100_0000 {
        out.extend(&[
            0x83,
            (count / 65_536) as u8,
            (count / 256 % 256) as u8,
            (count % 256) as u8,
        ])
    } else {
        out.extend(&[
            0x84,
            (count / 16_777_216) as u8,
            (count / 65_536 % 256) as u8,
            (count / 256 % 256) as u8,
            (count % 256) as u8,
        ])
    }
}

/// Adds an element.
#[tactic(auto, using(crate::proofs::spnego::Lengths::joined))]
fn put_element(out: &mut Bytes, tag: u8, contents: &[u8]) -> Result<(), AllocError>
    requires { length contents.now < 2 ^ 32 }
    ensures { OnOk result (out.new ≡ out.old ++ spelled tag contents.now) }
{
    out.push(tag)?;
    put_length(out, contents.len())?;
    out.extend(contents)
}

/// An element.
fn element(alloc: Global, tag: u8, contents: &[u8]) -> Result<Bytes, AllocError>
    requires { length contents.now < 2 ^ 32 }
    ensures { IfOk result (λ b. b ≡ spelled tag contents.now) }
{
    let mut out = Bytes::new(alloc);
    put_element(&mut out, tag, contents)?;
    Ok(out)
}

/// Adds an element of one OCTET STRING, where there is one.
#[tactic(auto, using(crate::proofs::spnego::Lengths::short_inside))]
fn put_octets(
    alloc: Global,
    out: &mut Bytes,
    tag: u8,
    bytes: &Option<Bytes>,
) -> Result<(), AllocError>
    requires { length (octets_spelling tag bytes.now) < 2 ^ 32 }
    ensures { OnOk result (out.new ≡ out.old ++ octets_spelling tag bytes.now) }
{
    match bytes {
        None => Ok(()),
        Some(bytes) => {
            let string = element(alloc, 4, bytes.as_slice())?;
            put_element(out, tag, string.as_slice())
        }
    }
}

/// Adds a negState, where there is one.
#[tactic(auto, using(crate::proofs::spnego::Lengths::state_short))]
fn put_state(alloc: Global, out: &mut Bytes, state: Option<u8>) -> Result<(), AllocError>
    ensures { OnOk result (out.new ≡ out.old ++ state_spelling state) }
{
    match state {
        None => Ok(()),
        Some(state) => {
            let number = element(alloc, 10, &[state])?;
            put_element(out, 0xa0, number.as_slice())
        }
    }
}

/// Adds NTLMSSP as the supportedMech, where it is.
#[tactic(auto, using(crate::proofs::spnego::Lengths::mech_short))]
fn put_mech(alloc: Global, out: &mut Bytes, ntlm: bool) -> Result<(), AllocError>
    ensures { OnOk result (out.new ≡ out.old ++ mech_spelling ntlm) }
{
    if !ntlm {
        return Ok(());
    }
    let name = element(alloc, 6, &NTLMSSP)?;
    put_element(out, 0xa1, name.as_slice())
}

fn init_fields_of(alloc: Global, token: &InitToken) -> Result<Bytes, AllocError>
    requires { length (init_fields_spelling (init_view token.now)) < 2 ^ 32 }
    ensures { IfOk result (λ b. b ≡ init_fields_spelling (init_view token.now)) }
{
    let mut out = element(alloc, 0xa0, token.mech_list.as_slice())?;
    put_octets(alloc, &mut out, 0xa2, &token.token)?;
    put_octets(alloc, &mut out, 0xa3, &token.mic)?;
    Ok(out)
}

/// A NegTokenInit without negHints, of a `mech_list` that reads, names NTLMSSP and begins with it as `ntlm_first` says.
pub fn write_init(alloc: Global, token: &InitToken) -> Result<Bytes, AllocError>
    requires { IsWritableInit (init_view token.now) }
    ensures { IfOk result (λ b. b ≡ init_spelling (init_view token.now)) }
{
    let fields = init_fields_of(alloc, token)?;
    let sequence = element(alloc, 0x30, fields.as_slice())?;
    let mut contents = element(alloc, 6, &SPNEGO)?;
    put_element(&mut contents, 0xa0, sequence.as_slice())?;
    element(alloc, 0x60, contents.as_slice())
}

fn resp_fields_of(alloc: Global, token: &RespToken) -> Result<Bytes, AllocError>
    requires { length (resp_fields_spelling (resp_view token.now)) < 2 ^ 32 }
    ensures { IfOk result (λ b. b ≡ resp_fields_spelling (resp_view token.now)) }
{
    let mut out = Bytes::new(alloc);
    put_state(alloc, &mut out, token.state)?;
    put_mech(alloc, &mut out, token.ntlm)?;
    put_octets(alloc, &mut out, 0xa2, &token.token)?;
    put_octets(alloc, &mut out, 0xa3, &token.mic)?;
    Ok(out)
}

/// A NegTokenResp.
pub fn write_resp(alloc: Global, token: &RespToken) -> Result<Bytes, AllocError>
    requires { IsWritableResp (resp_view token.now) }
    ensures { IfOk result (λ b. b ≡ resp_spelling (resp_view token.now)) }
{
    let fields = resp_fields_of(alloc, token)?;
    let sequence = element(alloc, 0x30, fields.as_slice())?;
    element(alloc, 0xa1, sequence.as_slice())
}
