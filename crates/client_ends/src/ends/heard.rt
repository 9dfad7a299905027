//! The header that a message begins with.
ghost use Rattle.std.specs.Prelude.{◌≡◌, true, false, MatchOption};
ghost use Rattle.spec_world.specs.Messages.{has_header, header_in};

use spec_wire::Header;
use wire_bytes::read_header;

/// The header that bytes begin with (MS-SMB2 2.2.1), where they do. It takes no memory.
#[tactic(auto, using(crate::proofs::ends::Headers::headless))]
pub fn heard_header(m: &[u8]) -> Option<Header>
    ensures { MatchOption result (has_header m.now ≡ false) (λ h. (has_header m.now ≡ true) × (header_in m.now ≡ h)) }
{
    match read_header(m) {
        Ok(header) => Some(header),
        Err(_) => None,
    }
}
