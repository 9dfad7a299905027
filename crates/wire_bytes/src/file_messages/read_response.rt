ghost use Rattle.std.specs.Prelude.{◌≡◌, ◌<◌, ◌^◌, length, IfOk};
ghost use Rattle.spec_wire.specs.messages.Table.{filler};
ghost use Rattle.spec_wire.specs.messages.Fault.{Reads};
ghost use Rattle.spec_wire.specs.messages.Read.{SpellsReadResponse, read_response_fault, read_response_spelling};
ghost use Rattle.wire_bytes.specs.file_messages.Views.{read_response};

use crate::byte_lists::{Bytes, FixedOut, Out, fields_fit, u8_at, u16_at, u32_at};
use crate::file_messages::read::ReadResponse;
use crate::headers::{MessageError, Part, part_of};
use std::alloc::{AllocError, Global};

/// Reads the READ response that stands behind the header of `m`.
pub fn read_read_response(m: &[u8]) -> Result<ReadResponse<'_>, MessageError>
    ensures { Reads (read_response_fault m.now) (SpellsReadResponse m.now) read_response result }
{
    fields_fit(m, &[64, 2, 1, 1, 4, 4, 4])?;
    let size = u16_at(m, 64);
    let payload_at = u8_at(m, 66);
    let payload_len = u32_at(m, 68);
    let data_remaining = u32_at(m, 72);
    if size != 17 {
        return Err(MessageError::BadSize(size));
    }
    let payload = part_of(
        m,
        payload_at as usize,
        payload_len as usize,
        80,
        Part::Payload,
    )?;
    Ok(ReadResponse {
        data_remaining,
        payload,
    })
}

// The bytes that stand where there is no payload.
fn filler_of(payload: &[u8]) -> u8
    ensures { result ≡ filler (length payload.now) }
{
    if payload.is_empty() { 1 } else { 0 }
}

/// The canonical spelling of the READ response, which stands behind a header. The payload's length
/// must fit its field of 4 bytes.
pub fn write_read_response(alloc: Global, v: &ReadResponse<'_>) -> Result<Bytes, AllocError>
    requires { length v.now.payload.now < 2 ^ 32 }
    ensures { IfOk result (λ b. b ≡ read_response_spelling (read_response v.now)) }
{
    let mut fixed = FixedOut::<16>::new();
    fixed.put_u16(17);
    fixed.put_u8(80);
    fixed.put_u8(0);
    fixed.put_u32(v.payload.len() as u32);
    fixed.put_u32(v.data_remaining);
    fixed.put_u32(0);
    let mut out = Out::new(alloc);
    out.put_slice(&fixed.finish())?;
    out.put_slice(v.payload)?;
    out.put_zeros(filler_of(v.payload))?;
    Ok(out.finish())
}
