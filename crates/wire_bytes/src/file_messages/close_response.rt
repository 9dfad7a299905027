ghost use Rattle.std.specs.Prelude.{◌≡◌, IfOk};
ghost use Rattle.spec_wire.specs.messages.Fault.{Reads};
ghost use Rattle.spec_wire.specs.messages.Close.{SpellsCloseResponse, close_response_fault, close_response_spelling};

use crate::byte_lists::{Bytes, FixedOut, fields_fit, u16_at, u32_at, u64_at};
use crate::headers::MessageError;
use spec_wire::CloseResponse;
use std::alloc::{AllocError, Global};

/// Reads the CLOSE response that stands behind the header of `m`.
pub fn read_close_response(m: &[u8]) -> Result<CloseResponse, MessageError>
    ensures { Reads (close_response_fault m.now) (SpellsCloseResponse m.now) (λ v. v) result }
{
    fields_fit(m, &[64, 2, 2, 4, 8, 8, 8, 8, 8, 8, 4])?;
    let size = u16_at(m, 64);
    let flags = u16_at(m, 66);
    let creation_time = u64_at(m, 72);
    let last_access_time = u64_at(m, 80);
    let last_write_time = u64_at(m, 88);
    let change_time = u64_at(m, 96);
    let allocation_size = u64_at(m, 104);
    let end_of_file = u64_at(m, 112);
    let file_attributes = u32_at(m, 120);
    if size != 60 {
        return Err(MessageError::BadSize(size));
    }
    Ok(CloseResponse {
        flags,
        creation_time,
        last_access_time,
        last_write_time,
        change_time,
        allocation_size,
        end_of_file,
        file_attributes,
    })
}

/// The canonical spelling of the CLOSE response, which stands behind a header.
pub fn write_close_response(alloc: Global, v: &CloseResponse) -> Result<Bytes, AllocError>
    ensures { IfOk result (λ b. b ≡ close_response_spelling v.now) }
{
    let mut fixed = FixedOut::<60>::new();
    fixed.put_u16(60);
    fixed.put_u16(v.flags);
    fixed.put_u32(0);
    fixed.put_u64(v.creation_time);
    fixed.put_u64(v.last_access_time);
    fixed.put_u64(v.last_write_time);
    fixed.put_u64(v.change_time);
    fixed.put_u64(v.allocation_size);
    fixed.put_u64(v.end_of_file);
    fixed.put_u32(v.file_attributes);
    Bytes::from_slice(alloc, &fixed.finish())
}
