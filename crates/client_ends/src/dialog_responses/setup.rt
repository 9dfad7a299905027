//! The responses to SESSION_SETUP and TREE_CONNECT.
ghost use Rattle.std.specs.Prelude.{◌≡◌, MatchOption, is_none, true, false};
ghost use Rattle.spec_wire.specs.messages.SessionSetup.{session_setup_response_fault};
ghost use Rattle.spec_wire.specs.messages.TreeConnect.{tree_connect_response_fault};
ghost use Rattle.spec_world.specs.Dialog.{setup_flags, setup_token};

use law_wire::session_setup_response_law;
use wire_bytes::{read_session_setup_response, read_tree_connect_response};

/// What a SESSION_SETUP response tells: its SessionFlags and its token.
#[derive(Clone, Copy)]
pub struct SetupTold<'a> {
    pub flags: u16,
    pub token: &'a [u8],
}

/// What the SESSION_SETUP response that stands in a message tells, where it reads; `m` is the message from its header on.
pub fn setup_told(m: &[u8]) -> Option<SetupTold<'_>>
    ensures { MatchOption result (is_none (session_setup_response_fault m.now) ≡ false)
        (λ r. (is_none (session_setup_response_fault m.now) ≡ true) × (r.token.now ≡ setup_token m.now) × (r.flags ≡ setup_flags m.now)) }
{
    session_setup_response_law();
    match read_session_setup_response(m) {
        Ok(response) => Some(SetupTold {
            flags: response.session_flags,
            token: response.security,
        }),
        Err(_) => None,
    }
}

/// Whether the TREE_CONNECT response that stands in a message reads.
pub fn tree_reads(m: &[u8]) -> bool
    ensures { result ≡ is_none (tree_connect_response_fault m.now) }
{
    match read_tree_connect_response(m) {
        Ok(_response) => true,
        Err(_) => false,
    }
}
