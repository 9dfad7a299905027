ghost use Rattle.std.specs.Prelude.{◌≡◌, IfOk};
ghost use Rattle.spec_wire.specs.messages.Fault.{Reads};
ghost use Rattle.spec_wire.specs.messages.Flush.{SpellsFlushResponse, flush_response_fault, flush_response_spelling};

use crate::byte_lists::{Bytes, Out, fields_fit, u16_at};
use crate::headers::MessageError;
use spec_wire::FlushResponse;
use std::alloc::{AllocError, Global};

/// Reads the FLUSH response that stands behind the header of `m`.
pub fn read_flush_response(m: &[u8]) -> Result<FlushResponse, MessageError>
    ensures { Reads (flush_response_fault m.now) (SpellsFlushResponse m.now) (λ v. v) result }
{
    fields_fit(m, &[64, 2, 2])?;
    let size = u16_at(m, 64);
    if size != 4 {
        return Err(MessageError::BadSize(size));
    }
    Ok(FlushResponse)
}

/// The canonical spelling of the FLUSH response, which stands behind a header.
pub fn write_flush_response(alloc: Global, _v: &FlushResponse) -> Result<Bytes, AllocError>
    ensures { IfOk result (λ b. b ≡ flush_response_spelling _v.now) }
{
    let mut out = Out::new(alloc);
    out.put_u16(4)?;
    out.put_u16(0)?;
    Ok(out.finish())
}
