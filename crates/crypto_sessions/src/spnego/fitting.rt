//! Whether a token can be written.
ghost use Rattle.std.specs.Prelude.{◌≡◌, ◌<◌, ◌^◌, ◌↔◌, IsTrue};
ghost use Rattle.spec_crypto.specs.tokens.Spnego.{ntlm_list, IsWritableInit, IsWritableResp};
ghost use Rattle.crypto_sessions.specs.spnego.Fitting.{size_of, HasUsualParts};
ghost use Rattle.crypto_sessions.specs.spnego.Views.{init_view, resp_view};

use crate::spnego::token::{InitToken, RespToken};
use wire_bytes::Bytes;

/// The SEQUENCE of mechTypes that names NTLMSSP alone.
pub const NTLM_LIST: [u8; 14] = [
    0x30, 0x0c, 0x06, 0x0a, 0x2b, 0x06, 0x01, 0x04, 0x01, 0x82, 0x37, 0x02, 0x02, 0x0a,
];

/// The bytes of a part that are never too many.
const MOST: usize = 0x4000_0000;

fn part_size(part: &Option<Bytes>) -> usize
    ensures { result ≡ size_of part.now }
{
    match part {
        None => 0,
        Some(bytes) => bytes.len(),
    }
}

fn names_ntlm_alone(list: &Bytes) -> bool
    ensures { IsTrue result ↔ list.now ≡ ntlm_list }
{
    list.as_slice() == NTLM_LIST.as_slice()
}

/// Whether `write_init` takes a token: where its list names NTLMSSP alone and its parts have fewer than 2^30 bytes.
#[tactic(auto, using(crate::proofs::spnego::Writable::init_writable))]
pub fn can_write_init(token: &InitToken) -> bool
    ensures exact { IsTrue result ↔ HasUsualParts token.now }
    ensures fits { IsTrue result → IsWritableInit (init_view token.now) }
{
    if !token.ntlm_first {
        return false;
    }
    if part_size(&token.token) >= MOST {
        return false;
    }
    if part_size(&token.mic) >= MOST {
        return false;
    }
    names_ntlm_alone(&token.mech_list)
}

/// Whether `write_resp` takes a token: where its parts have fewer than 2^30 bytes.
#[tactic(auto, using(crate::proofs::spnego::Writable::resp_writable))]
pub fn can_write_resp(token: &RespToken) -> bool
    ensures exact { IsTrue result ↔ (size_of token.now.token < 2 ^ 30) × (size_of token.now.mic < 2 ^ 30) }
    ensures fits { IsTrue result → IsWritableResp (resp_view token.now) }
{
    part_size(&token.token) < MOST && part_size(&token.mic) < MOST
}
