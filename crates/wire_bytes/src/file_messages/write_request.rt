ghost use Rattle.std.specs.Prelude.{◌≡◌, ◌<◌, ◌^◌, length, IfOk};
ghost use Rattle.spec_wire.specs.messages.Fault.{Reads};
ghost use Rattle.spec_wire.specs.messages.Write.{SpellsWriteRequest, write_request_fault, write_request_spelling};
ghost use Rattle.wire_bytes.specs.file_messages.Views.{write_request};

use crate::byte_lists::{Bytes, FixedOut, Out, array_at, fields_fit, u16_at, u32_at, u64_at};
use crate::file_messages::write::WriteRequest;
use crate::headers::{MessageError, Part, part_of};
use std::alloc::{AllocError, Global};

/// Reads the WRITE request that stands behind the header of `m`.
pub fn read_write_request(m: &[u8]) -> Result<WriteRequest<'_>, MessageError>
    ensures { Reads (write_request_fault m.now) (SpellsWriteRequest m.now) write_request result }
{
    // Long by its fields alone: after this one check each of them is a line that can't fail. Channel information
    // (RDMA) is passed over, so its place and its length aren't read.
    fields_fit(m, &[64, 2, 2, 4, 8, 16, 4, 4, 2, 2, 4])?;
    let size = u16_at(m, 64);
    let payload_at = u16_at(m, 66);
    let payload_len = u32_at(m, 68);
    let offset = u64_at(m, 72);
    let file_id = array_at::<16>(m, 80);
    let channel = u32_at(m, 96);
    let remaining_bytes = u32_at(m, 100);
    let flags = u32_at(m, 108);
    if size != 49 {
        return Err(MessageError::BadSize(size));
    }
    let payload = part_of(
        m,
        payload_at as usize,
        payload_len as usize,
        112,
        Part::Payload,
    )?;
    Ok(WriteRequest {
        offset,
        file_id,
        channel,
        remaining_bytes,
        flags,
        payload,
    })
}

/// The canonical spelling of the WRITE request, which stands behind a header. The payload's length
/// must fit its field of 4 bytes.
pub fn write_write_request(alloc: Global, v: &WriteRequest<'_>) -> Result<Bytes, AllocError>
    requires { length v.now.payload.now < 2 ^ 32 }
    ensures { IfOk result (λ b. b ≡ write_request_spelling (write_request v.now)) }
{
    let mut fixed = FixedOut::<48>::new();
    fixed.put_u16(49);
    fixed.put_u16(112);
    fixed.put_u32(v.payload.len() as u32);
    fixed.put_u64(v.offset);
    fixed.put_slice(&v.file_id);
    fixed.put_u32(v.channel);
    fixed.put_u32(v.remaining_bytes);
    fixed.put_u16(0);
    fixed.put_u16(0);
    fixed.put_u32(v.flags);
    let mut out = Out::new(alloc);
    out.put_slice(&fixed.finish())?;
    out.put_slice(v.payload)?;
    Ok(out.finish())
}
