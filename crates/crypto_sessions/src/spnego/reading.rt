//! Tokens read.
ghost use Rattle.std.specs.Prelude.{◌≡◌, ◌<◌, ◌+◌, ◌^◌, if◌then◌else◌, length, IfOk};
ghost use Rattle.spec_crypto.specs.tokens.Spnego.{init_fields, init_choice, init_in, resp_fields, resp_in};
ghost use Rattle.crypto_sessions.specs.spnego.Pieces.{der_piece, DerAnswers};
ghost use Rattle.crypto_sessions.specs.spnego.Fields.{der_lent, init_fields_view, resp_fields_view};
ghost use Rattle.crypto_sessions.specs.spnego.Views.{init_view, resp_view, TokenReads};

use crate::spnego::element::{Piece, element_of, end_of};
use crate::spnego::fields::{
    behind_name, mech_of, mech_types_of, octets_of, pass, pass_hints, state_of,
};
use crate::spnego::token::{InitToken, RespToken};
use spec_crypto::DerError;
use std::alloc::{AllocError, Global};
use wire_bytes::Bytes;

/// What the SEQUENCE of a NegTokenInit holds.
#[derive(Clone, Copy)]
pub(crate) struct InitFields<'a> {
    pub names_ntlm: bool,
    pub mech_list: &'a [u8],
    pub ntlm_first: bool,
    pub token: Option<&'a [u8]>,
    pub mic: Option<&'a [u8]>,
}

fn mic_tag(hints: bool) -> u8
    ensures { result ≡ (if hints then 0xa4 else 0xa3) }
{
    if hints { 0xa4 } else { 0xa3 }
}

#[tactic(auto, unfolding(spec_crypto::specs::tokens::Spnego::init_fields))]
fn init_fields_of<'a>(p: &Piece<'a>) -> Result<InitFields<'a>, DerError>
    requires { p.now.at + length p.now.bytes.now < 2 ^ 63 }
    ensures { DerAnswers init_fields_view result (init_fields (der_piece p.now)) }
{
    let types = mech_types_of(p)?;
    let behind_flags = pass(0xa1, &types.rest)?;
    let token = octets_of(0xa2, &behind_flags)?;
    let hints = pass_hints(&token.rest)?;
    let mic = octets_of(mic_tag(hints.present), &hints.rest)?;
    end_of(&mic.rest)?;
    Ok(InitFields {
        names_ntlm: types.names.names_ntlm,
        mech_list: types.list,
        ntlm_first: types.names.ntlm_first,
        token: token.bytes,
        mic: mic.bytes,
    })
}

#[tactic(auto, unfolding(spec_crypto::specs::tokens::Spnego::init_choice))]
fn init_choice_of<'a>(p: &Piece<'a>) -> Result<InitFields<'a>, DerError>
    requires { p.now.at + length p.now.bytes.now < 2 ^ 63 }
    ensures { DerAnswers init_fields_view result (init_choice (der_piece p.now)) }
{
    let choice = element_of(0xa0, p)?;
    let sequence = element_of(0x30, &choice.contents)?;
    let fields = init_fields_of(&sequence.contents)?;
    end_of(&sequence.rest)?;
    end_of(&choice.rest)?;
    Ok(fields)
}

/// A copy of bytes, where there are some.
fn copy_of(alloc: Global, bytes: Option<&[u8]>) -> Result<Option<Bytes>, AllocError>
    ensures { IfOk result (λ copy. copy ≡ der_lent bytes.entry) }
{
    match bytes {
        None => Ok(None),
        Some(bytes) => Ok(Some(Bytes::from_slice(alloc, bytes)?)),
    }
}

/// The value of a NegTokenInit, with or without negHints (RFC 4178 4.2.1, MS-SPNG 2.2.1), or the first break by its
/// place; `NoNtlm` where nothing else breaks.
#[tactic(auto, unfolding(spec_crypto::specs::tokens::Spnego::init_in))]
pub fn read_init(alloc: Global, bytes: &[u8]) -> Result<InitToken, DerError>
    ensures { TokenReads init_view result (init_in bytes.now) }
{
    let token = element_of(0x60, &Piece::whole(bytes))?;
    let named = behind_name(&token.contents)?;
    let fields = init_choice_of(&named)?;
    end_of(&token.rest)?;
    if !fields.names_ntlm {
        return Err(DerError::NoNtlm);
    }
    Ok(InitToken {
        mech_list: Bytes::from_slice(alloc, fields.mech_list)?,
        ntlm_first: fields.ntlm_first,
        token: copy_of(alloc, fields.token)?,
        mic: copy_of(alloc, fields.mic)?,
    })
}

/// What the SEQUENCE of a NegTokenResp holds.
#[derive(Clone, Copy)]
pub(crate) struct RespFields<'a> {
    pub state: Option<u8>,
    pub ntlm: bool,
    pub token: Option<&'a [u8]>,
    pub mic: Option<&'a [u8]>,
}

#[tactic(auto, unfolding(spec_crypto::specs::tokens::Spnego::resp_fields))]
fn resp_fields_of<'a>(p: &Piece<'a>) -> Result<RespFields<'a>, DerError>
    requires { p.now.at + length p.now.bytes.now < 2 ^ 63 }
    ensures { DerAnswers resp_fields_view result (resp_fields (der_piece p.now)) }
{
    let state = state_of(p)?;
    let mech = mech_of(&state.rest)?;
    let token = octets_of(0xa2, &mech.rest)?;
    let mic = octets_of(0xa3, &token.rest)?;
    end_of(&mic.rest)?;
    Ok(RespFields {
        state: state.value,
        ntlm: mech.ntlm,
        token: token.bytes,
        mic: mic.bytes,
    })
}

#[tactic(auto, unfolding(spec_crypto::specs::tokens::Spnego::resp_in))]
fn resp_choice_of(bytes: &[u8]) -> Result<RespFields<'_>, DerError>
    ensures { DerAnswers resp_fields_view result (resp_in bytes.now) }
{
    let choice = element_of(0xa1, &Piece::whole(bytes))?;
    let sequence = element_of(0x30, &choice.contents)?;
    let fields = resp_fields_of(&sequence.contents)?;
    end_of(&sequence.rest)?;
    end_of(&choice.rest)?;
    Ok(fields)
}

/// The value of a NegTokenResp (RFC 4178 4.2.2), or the first break by its place.
pub fn read_resp(alloc: Global, bytes: &[u8]) -> Result<RespToken, DerError>
    ensures { TokenReads resp_view result (resp_in bytes.now) }
{
    let fields = resp_choice_of(bytes)?;
    Ok(RespToken {
        state: fields.state,
        ntlm: fields.ntlm,
        token: copy_of(alloc, fields.token)?,
        mic: copy_of(alloc, fields.mic)?,
    })
}
