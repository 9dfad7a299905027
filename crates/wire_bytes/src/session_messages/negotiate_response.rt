ghost use Rattle.std.specs.Prelude.{◌≡◌, ◌+◌, ◌<◌, ◌^◌, length, IfOk};
ghost use Rattle.spec_wire.specs.messages.Fault.{Reads};
ghost use Rattle.spec_wire.specs.messages.Negotiate.{SpellsNegotiateResponse, negotiate_response_fault, negotiate_response_spelling};
ghost use Rattle.wire_bytes.specs.session_messages.Views.{negotiate_response};

use crate::byte_lists::{Bytes, FixedOut, Out, array_at, fields_fit, u16_at, u32_at, u64_at};
use crate::headers::{MessageError, Part, contexts_of, part_of};
use crate::session_messages::gap::{gap_of, place_of};
use crate::session_messages::negotiate::NegotiateResponse;
use std::alloc::{AllocError, Global};

/// Reads the NEGOTIATE response that stands behind the header of `m`.
pub fn read_negotiate_response(m: &[u8]) -> Result<NegotiateResponse<'_>, MessageError>
    ensures { Reads (negotiate_response_fault m.now) (SpellsNegotiateResponse m.now) negotiate_response result }
{
    // Long by its fields alone: after this one check each of them is a line that can't fail.
    fields_fit(m, &[64, 2, 2, 2, 2, 16, 4, 4, 4, 4, 8, 8, 2, 2, 4])?;
    let size = u16_at(m, 64);
    let security_mode = u16_at(m, 66);
    let dialect_revision = u16_at(m, 68);
    let negotiate_context_count = u16_at(m, 70);
    let server_guid = array_at::<16>(m, 72);
    let capabilities = u32_at(m, 88);
    let max_transact_size = u32_at(m, 92);
    let max_read_size = u32_at(m, 96);
    let max_write_size = u32_at(m, 100);
    let system_time = u64_at(m, 104);
    let server_start_time = u64_at(m, 112);
    let security_at = u16_at(m, 120);
    let security_len = u16_at(m, 122);
    let contexts_at = u32_at(m, 124);
    if size != 65 {
        return Err(MessageError::BadSize(size));
    }
    let security = part_of(
        m,
        security_at as usize,
        security_len as usize,
        128,
        Part::Security,
    )?;
    let contexts = contexts_of(m, contexts_at as usize, negotiate_context_count, 128)?;
    Ok(NegotiateResponse {
        security_mode,
        dialect_revision,
        negotiate_context_count,
        server_guid,
        capabilities,
        max_transact_size,
        max_read_size,
        max_write_size,
        system_time,
        server_start_time,
        security,
        contexts,
    })
}

/// The canonical spelling of the NEGOTIATE response, which stands behind a header. The token's length
/// must fit its field of 2 bytes.
pub fn write_negotiate_response(
    alloc: Global,
    v: &NegotiateResponse<'_>,
) -> Result<Bytes, AllocError>
    requires { length v.now.security.now < 2 ^ 16 }
    ensures { IfOk result (λ b. b ≡ negotiate_response_spelling (negotiate_response v.now)) }
{
    let count = v.negotiate_context_count;
    let behind = 128 + v.security.len() as u32;
    let mut fixed = FixedOut::<64>::new();
    fixed.put_u16(65);
    fixed.put_u16(v.security_mode);
    fixed.put_u16(v.dialect_revision);
    fixed.put_u16(count);
    fixed.put_slice(&v.server_guid);
    fixed.put_u32(v.capabilities);
    fixed.put_u32(v.max_transact_size);
    fixed.put_u32(v.max_read_size);
    fixed.put_u32(v.max_write_size);
    fixed.put_u64(v.system_time);
    fixed.put_u64(v.server_start_time);
    fixed.put_u16(128);
    fixed.put_u16(v.security.len() as u16);
    fixed.put_u32(place_of(count, behind));
    let mut out = Out::new(alloc);
    out.put_slice(&fixed.finish())?;
    out.put_slice(v.security)?;
    out.put_zeros(gap_of(count, behind))?;
    out.put_slice(v.contexts)?;
    Ok(out.finish())
}
