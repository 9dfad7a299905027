//! A logon's beginning.
ghost use Rattle.std.specs.Prelude.{◌≡◌, ◌<◌, length, IfOk};
ghost use Rattle.spec_crypto.specs.tokens.Tokens.{first_token as first_due};
ghost use Rattle.spec_world.specs.Dialog.{is_hint as hints};

use crypto_sessions::{InitToken, NTLM_LIST, can_write_init, first_message, read_init, write_init};
use spec_crypto::DerError;
use std::alloc::{AllocError, Global};
use wire_bytes::Bytes;

/// The client's first token: NTLMSSP alone, with the type 1.
#[tactic(auto, using(crate::proofs::tokens::Firsts::first_short, crate::proofs::tokens::Firsts::first_writable), unfolding(spec_crypto::specs::tokens::Tokens::first_token))]
pub fn first_token(alloc: Global) -> Result<Bytes, AllocError>
    ensures token { IfOk result (λ b. b ≡ first_due) }
    ensures short { IfOk result (λ b. length b < 65536) }
{
    let token = InitToken {
        mech_list: Bytes::from_slice(alloc, &NTLM_LIST)?,
        ntlm_first: true,
        token: Some(first_message(alloc)?),
        mic: None,
    };
    if !can_write_init(&token) {
        unreachable!()
    }
    write_init(alloc, &token)
}

/// Whether a NEGOTIATE response's token is none, or reads as the server's hint.
#[tactic(auto, unfolding(spec_world::specs::Dialog::is_hint))]
pub fn is_hint(alloc: Global, token: &[u8]) -> Result<bool, AllocError>
    ensures { IfOk result (λ b. b ≡ hints token.now) }
{
    if token.is_empty() {
        return Ok(true);
    }
    match read_init(alloc, token) {
        Ok(_token) => Ok(true),
        Err(DerError::Memory) => Err(AllocError),
        Err(_) => Ok(false),
    }
}
