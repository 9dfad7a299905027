ghost use Rattle.std.specs.Prelude.{◌≡◌, IfOk};
ghost use Rattle.spec_wire.specs.messages.Fault.{Reads};
ghost use Rattle.spec_wire.specs.messages.Flush.{SpellsFlushRequest, flush_request_fault, flush_request_spelling};

use crate::byte_lists::{Bytes, FixedOut, array_at, fields_fit, u16_at};
use crate::headers::MessageError;
use spec_wire::FlushRequest;
use std::alloc::{AllocError, Global};

/// Reads the FLUSH request that stands behind the header of `m`.
pub fn read_flush_request(m: &[u8]) -> Result<FlushRequest, MessageError>
    ensures { Reads (flush_request_fault m.now) (SpellsFlushRequest m.now) (λ v. v) result }
{
    fields_fit(m, &[64, 2, 2, 4, 16])?;
    let size = u16_at(m, 64);
    let file_id = array_at::<16>(m, 72);
    if size != 24 {
        return Err(MessageError::BadSize(size));
    }
    Ok(FlushRequest { file_id })
}

/// The canonical spelling of the FLUSH request, which stands behind a header.
pub fn write_flush_request(alloc: Global, v: &FlushRequest) -> Result<Bytes, AllocError>
    ensures { IfOk result (λ b. b ≡ flush_request_spelling v.now) }
{
    let mut fixed = FixedOut::<24>::new();
    fixed.put_u16(24);
    fixed.put_u16(0);
    fixed.put_u32(0);
    fixed.put_slice(&v.file_id);
    Bytes::from_slice(alloc, &fixed.finish())
}
