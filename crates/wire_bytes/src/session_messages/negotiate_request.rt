ghost use Rattle.std.specs.Prelude.{◌≡◌, ◌+◌, ◌%◌, ◌<◌, ◌≤◌, ◌^◌, ◌*◌, length, IfOk};
ghost use Rattle.spec_wire.specs.messages.Fault.{Reads};
ghost use Rattle.spec_wire.specs.messages.Negotiate.{SpellsNegotiateRequest, negotiate_request_fault, negotiate_request_spelling};
ghost use Rattle.wire_bytes.specs.session_messages.Views.{negotiate_request};

use crate::byte_lists::{Bytes, FixedOut, Out, array_at, fields_fit, u16_at, u32_at};
use crate::headers::{MessageError, Part, contexts_of, counted_at};
use crate::session_messages::gap::{gap_of, place_of};
use crate::session_messages::negotiate::NegotiateRequest;
use std::alloc::{AllocError, Global};

/// Reads the NEGOTIATE request that stands behind the header of `m`.
pub fn read_negotiate_request(m: &[u8]) -> Result<NegotiateRequest<'_>, MessageError>
    ensures { Reads (negotiate_request_fault m.now) (SpellsNegotiateRequest m.now) negotiate_request result }
{
    fields_fit(m, &[64, 2, 2, 2, 2, 4, 16, 4, 2, 2])?;
    let size = u16_at(m, 64);
    let dialect_count = u16_at(m, 66);
    let security_mode = u16_at(m, 68);
    let capabilities = u32_at(m, 72);
    let client_guid = array_at::<16>(m, 76);
    let contexts_at = u32_at(m, 92);
    let negotiate_context_count = u16_at(m, 96);
    if size != 36 {
        return Err(MessageError::BadSize(size));
    }
    let dialects = counted_at(m, 100, dialect_count, 2, Part::Dialects)?;
    let contexts = contexts_of(m, contexts_at as usize, negotiate_context_count, 100)?;
    Ok(NegotiateRequest {
        security_mode,
        capabilities,
        client_guid,
        negotiate_context_count,
        dialects,
        contexts,
    })
}

/// The canonical spelling of the NEGOTIATE request, which stands behind a header. The dialects must be
/// whole, at least one, and their count must fit its field of 2 bytes.
pub fn write_negotiate_request(alloc: Global, v: &NegotiateRequest<'_>) -> Result<Bytes, AllocError>
    requires whole { length v.now.dialects.now % 2 ≡ 0 }
    requires some { 0 < length v.now.dialects.now }
    requires fits { length v.now.dialects.now < 2 * 2 ^ 16 }
    ensures { IfOk result (λ b. b ≡ negotiate_request_spelling (negotiate_request v.now)) }
{
    let count = v.negotiate_context_count;
    let behind = 100 + v.dialects.len() as u32;
    let mut fixed = FixedOut::<36>::new();
    fixed.put_u16(36);
    fixed.put_u16((v.dialects.len() / 2) as u16);
    fixed.put_u16(v.security_mode);
    fixed.put_u16(0);
    fixed.put_u32(v.capabilities);
    fixed.put_slice(&v.client_guid);
    fixed.put_u32(place_of(count, behind));
    fixed.put_u16(count);
    fixed.put_u16(0);
    let mut out = Out::new(alloc);
    out.put_slice(&fixed.finish())?;
    out.put_slice(v.dialects)?;
    out.put_zeros(gap_of(count, behind))?;
    out.put_slice(v.contexts)?;
    Ok(out.finish())
}
