ghost use Rattle.std.specs.Prelude.{◌≡◌, ◌<◌, ◌≤◌, length, MatchResult};
ghost use Rattle.spec_wire.specs.messages.Places.{number};

use crate::byte_lists::{Cursor, Short};

/// The two halves of 16 bytes, the first one the lower.
#[derive(Clone, Copy)]
pub struct Halves {
    pub low: u64,
    pub high: u64,
}

/// The halves of an id of 16 bytes: a FileId (MS-SMB2 2.2.14.1), a ClientGuid or a CreateGuid. Less than 16 bytes are too few.
pub fn halves_of(id: &[u8]) -> Result<Halves, Short>
    ensures { MatchResult result (λ h. (h.low ≡ number 8 id.now 0) × (h.high ≡ number 8 id.now 8) × (16 ≤ length id.now))
        (λ _. length id.now < 16) }
{
    let mut cursor = Cursor::new(id);
    let low = cursor.get_u64()?;
    let high = cursor.get_u64()?;
    Ok(Halves { low, high })
}
