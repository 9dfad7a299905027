ghost use Rattle.spec_wire.specs.messages.Header.{ReadsHeader};

use crate::byte_lists::{array_at, u16_at, u32_at, u64_at};
use spec_wire::{Header, HeaderError};

/// Reads the header that `m` begins with (MS-SMB2 2.2.1). The refusals are, in this order, `Short`,
/// `BadProtocol` and `BadSize`.
pub fn read_header(m: &[u8]) -> Result<Header, HeaderError>
    ensures { ReadsHeader m.now result }
{
    if m.len() < 64 {
        return Err(HeaderError::Short);
    }
    let protocol = array_at::<4>(m, 0);
    let size = u16_at(m, 4);
    if protocol != [0xfe, b'S', b'M', b'B'] {
        return Err(HeaderError::BadProtocol(protocol));
    }
    if size != 64 {
        return Err(HeaderError::BadSize(size));
    }
    Ok(Header {
        charge: u16_at(m, 6),
        status: u32_at(m, 8),
        command: u16_at(m, 12),
        credits: u16_at(m, 14),
        flags: u32_at(m, 16),
        next: u32_at(m, 20),
        message: u64_at(m, 24),
        tree: u32_at(m, 36),
        session: u64_at(m, 40),
        signature: array_at::<16>(m, 48),
    })
}
