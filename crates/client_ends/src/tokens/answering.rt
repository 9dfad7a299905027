//! The answer to the server's challenge.
ghost use Rattle.std.specs.Prelude.{◌≡◌, true, Some, IfOk};
ghost use Rattle.spec_crypto.specs.tokens.Formulas.{mech_list_mic};
ghost use Rattle.spec_crypto.specs.tokens.Messages.{type2_in};
ghost use Rattle.spec_crypto.specs.tokens.Spnego.{ntlm_list};
ghost use Rattle.spec_crypto.specs.tokens.Tokens.{answer_resp, answer_to_message, answer_token as answer_due};
ghost use Rattle.crypto_sessions.specs.ntlmv2.Views.{credentials_view};
ghost use Rattle.spec_world.specs.Sending.{that_fits};

use crypto_sessions::{
    Credentials, NTLM_LIST, RespToken, answer_to, can_write_resp, first_message, read_resp,
    read_type2, sign_mech_list, write_resp,
};
use spec_crypto::DerError;
use std::alloc::{AllocError, Global};
use wire_bytes::Bytes;

/// The bytes that a token's length field doesn't count any more.
const MOST: usize = 65_536;

/// A type 3 as a token, with a MIC over the list of mechanisms, where the token's length fits its field.
#[tactic(auto, using(crate::proofs::tokens::Answers::too_long, crate::proofs::tokens::Answers::fits, crate::proofs::tokens::Answers::over, crate::proofs::tokens::Answers::code_short))]
fn wrapped(alloc: Global, key: &[u8; 16], third: Bytes) -> Result<Option<Bytes>, AllocError>
    ensures { IfOk result (λ t. t ≡ that_fits (Some (answer_resp third (mech_list_mic key.now true true ntlm_list)))) }
{
    if third.len() >= MOST {
        return Ok(None);
    }
    let code = sign_mech_list(key, true, true, &NTLM_LIST);
    let token = RespToken {
        state: None,
        ntlm: false,
        token: Some(third),
        mic: Some(Bytes::from_slice(alloc, &code)?),
    };
    if !can_write_resp(&token) {
        unreachable!()
    }
    let bytes = write_resp(alloc, &token)?;
    if bytes.len() >= MOST {
        return Ok(None);
    }
    Ok(Some(bytes))
}

/// The token that answers the bytes of a type 2.
fn answer_message(
    alloc: Global,
    client: &Credentials<'_>,
    second: &[u8],
) -> Result<Option<Bytes>, AllocError>
    ensures { IfOk result (λ t. t ≡ that_fits (answer_to_message (credentials_view client.now) second.now (type2_in second.now))) }
{
    let message = match read_type2(second) {
        Ok(message) => message,
        Err(_) => return Ok(None),
    };
    let first = first_message(alloc)?;
    match answer_to(alloc, client, first.as_slice(), second, &message)? {
        Some(third) => wrapped(alloc, &client.key, third),
        None => Ok(None),
    }
}

/// The answer to an interim token; none where that doesn't read, has no type 2, or one whose answer has no room in its
/// fields (MS-NLMP 3.1.5.1.2).
#[tactic(auto, unfolding(spec_crypto::specs::tokens::Tokens::answer_token))]
pub fn answer_token(
    alloc: Global,
    client: &Credentials<'_>,
    token: &[u8],
) -> Result<Option<Bytes>, AllocError>
    ensures { IfOk result (λ t. t ≡ that_fits (answer_due (credentials_view client.now) token.now)) }
{
    let resp = match read_resp(alloc, token) {
        Ok(resp) => resp,
        Err(DerError::Memory) => return Err(AllocError),
        Err(_) => return Ok(None),
    };
    match &resp.token {
        Some(second) => answer_message(alloc, client, second.as_slice()),
        None => Ok(None),
    }
}
