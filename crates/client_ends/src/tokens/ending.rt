//! The server's last token.
ghost use Rattle.std.specs.Prelude.{◌≡◌, IfOk};
ghost use Rattle.std.specs.Str.{bytes_eq};
ghost use Rattle.spec_crypto.specs.tokens.Tokens.{is_final as ends, is_final_with};
ghost use Rattle.crypto_sessions.specs.spnego.Views.{resp_view};

use crypto_sessions::{NTLM_LIST, RespToken, read_resp, sign_mech_list};
use spec_crypto::DerError;
use std::alloc::{AllocError, Global};
use wire_bytes::Bytes;

fn is_same(a: &[u8], b: &[u8]) -> bool
    ensures { result ≡ bytes_eq a.now b.now }
{
    a == b
}

/// Whether a token says accept-completed, and its MIC over the list of mechanisms, where it has one, is the server's.
fn ends_with(key: &[u8; 16], token: &RespToken) -> bool
    ensures { result ≡ is_final_with key.now (resp_view token.now) }
{
    if token.state != Some(0) {
        return false;
    }
    match &token.mic {
        Some(code) => is_same(
            code.as_slice(),
            &sign_mech_list(key, false, true, &NTLM_LIST),
        ),
        None => true,
    }
}

/// Whether a client with this exported key takes a token as the last one of its logon.
#[tactic(auto, unfolding(spec_crypto::specs::tokens::Tokens::is_final))]
pub fn is_final(alloc: Global, key: &[u8; 16], token: &[u8]) -> Result<bool, AllocError>
    ensures { IfOk result (λ b. b ≡ ends key.now token.now) }
{
    match read_resp(alloc, token) {
        Ok(resp) => Ok(ends_with(key, &resp)),
        Err(DerError::Memory) => Err(AllocError),
        Err(_) => Ok(false),
    }
}
