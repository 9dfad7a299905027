ghost use Rattle.std.specs.Prelude.{◌≡◌, IfOk};
ghost use Rattle.spec_wire.specs.messages.Fault.{Reads};
ghost use Rattle.spec_wire.specs.messages.Close.{SpellsCloseRequest, close_request_fault, close_request_spelling};

use crate::byte_lists::{Bytes, FixedOut, array_at, fields_fit, u16_at};
use crate::headers::MessageError;
use spec_wire::CloseRequest;
use std::alloc::{AllocError, Global};

/// Reads the CLOSE request that stands behind the header of `m`.
pub fn read_close_request(m: &[u8]) -> Result<CloseRequest, MessageError>
    ensures { Reads (close_request_fault m.now) (SpellsCloseRequest m.now) (λ v. v) result }
{
    fields_fit(m, &[64, 2, 2, 4, 16])?;
    let size = u16_at(m, 64);
    let flags = u16_at(m, 66);
    let file_id = array_at::<16>(m, 72);
    if size != 24 {
        return Err(MessageError::BadSize(size));
    }
    Ok(CloseRequest { flags, file_id })
}

/// The canonical spelling of the CLOSE request, which stands behind a header.
pub fn write_close_request(alloc: Global, v: &CloseRequest) -> Result<Bytes, AllocError>
    ensures { IfOk result (λ b. b ≡ close_request_spelling v.now) }
{
    let mut fixed = FixedOut::<24>::new();
    fixed.put_u16(24);
    fixed.put_u16(v.flags);
    fixed.put_u32(0);
    fixed.put_slice(&v.file_id);
    Bytes::from_slice(alloc, &fixed.finish())
}
