ghost use Rattle.std.specs.Prelude.{◌≡◌, IfOk};
ghost use Rattle.spec_wire.specs.messages.Fault.{Reads};
ghost use Rattle.spec_wire.specs.messages.Write.{SpellsWriteResponse, write_response_fault, write_response_spelling};

use crate::byte_lists::{Bytes, FixedOut, fields_fit, u16_at, u32_at};
use crate::headers::MessageError;
use spec_wire::WriteResponse;
use std::alloc::{AllocError, Global};

/// Reads the WRITE response that stands behind the header of `m`.
pub fn read_write_response(m: &[u8]) -> Result<WriteResponse, MessageError>
    ensures { Reads (write_response_fault m.now) (SpellsWriteResponse m.now) (λ v. v) result }
{
    fields_fit(m, &[64, 2, 2, 4, 4, 2, 2])?;
    let size = u16_at(m, 64);
    let count = u32_at(m, 68);
    let remaining = u32_at(m, 72);
    if size != 17 {
        return Err(MessageError::BadSize(size));
    }
    Ok(WriteResponse { count, remaining })
}

/// The canonical spelling of the WRITE response, which stands behind a header.
pub fn write_write_response(alloc: Global, v: &WriteResponse) -> Result<Bytes, AllocError>
    ensures { IfOk result (λ b. b ≡ write_response_spelling v.now) }
{
    let mut fixed = FixedOut::<16>::new();
    fixed.put_u16(17);
    fixed.put_u16(0);
    fixed.put_u32(v.count);
    fixed.put_u32(v.remaining);
    fixed.put_u16(0);
    fixed.put_u16(0);
    Bytes::from_slice(alloc, &fixed.finish())
}
