ghost use Rattle.std.specs.Prelude.{◌≡◌, IfOk};
ghost use Rattle.spec_wire.specs.messages.Fault.{Reads};
ghost use Rattle.spec_wire.specs.messages.Read.{SpellsReadRequest, read_request_fault, read_request_spelling};

use crate::byte_lists::{Bytes, FixedOut, array_at, fields_fit, u8_at, u16_at, u32_at, u64_at};
use crate::headers::MessageError;
use spec_wire::ReadRequest;
use std::alloc::{AllocError, Global};

/// Reads the READ request that stands behind the header of `m`.
pub fn read_read_request(m: &[u8]) -> Result<ReadRequest, MessageError>
    ensures { Reads (read_request_fault m.now) (SpellsReadRequest m.now) (λ v. v) result }
{
    fields_fit(m, &[64, 2, 1, 1, 4, 8, 16, 4, 4, 4, 2, 2, 1])?;
    let size = u16_at(m, 64);
    let flags = u8_at(m, 67);
    let length = u32_at(m, 68);
    let offset = u64_at(m, 72);
    let file_id = array_at::<16>(m, 80);
    let minimum_count = u32_at(m, 96);
    let channel = u32_at(m, 100);
    let remaining_bytes = u32_at(m, 104);
    if size != 49 {
        return Err(MessageError::BadSize(size));
    }
    Ok(ReadRequest {
        flags,
        length,
        offset,
        file_id,
        minimum_count,
        channel,
        remaining_bytes,
    })
}

/// The canonical spelling of the READ request, which stands behind a header.
pub fn write_read_request(alloc: Global, v: &ReadRequest) -> Result<Bytes, AllocError>
    ensures { IfOk result (λ b. b ≡ read_request_spelling v.now) }
{
    let mut fixed = FixedOut::<49>::new();
    fixed.put_u16(49);
    fixed.put_u8(0);
    fixed.put_u8(v.flags);
    fixed.put_u32(v.length);
    fixed.put_u64(v.offset);
    fixed.put_slice(&v.file_id);
    fixed.put_u32(v.minimum_count);
    fixed.put_u32(v.channel);
    fixed.put_u32(v.remaining_bytes);
    fixed.put_u16(0);
    fixed.put_u16(0);
    fixed.put_u8(0);
    Bytes::from_slice(alloc, &fixed.finish())
}
