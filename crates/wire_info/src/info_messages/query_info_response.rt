ghost use Rattle.std.specs.Prelude.{◌≡◌, IfOk, ◌<◌, ◌^◌, length};
ghost use Rattle.spec_wire.specs.messages.Fault.{Reads};
ghost use Rattle.spec_wire.specs.messages.QueryInfo.{SpellsQueryInfoResponse, query_info_response_fault, query_info_response_spelling};
ghost use Rattle.wire_info.specs.info_messages.Views.{query_info_response};

use crate::info_messages::query_info::QueryInfoResponse;
use std::alloc::{AllocError, Global};
use wire_bytes::{Bytes, FixedOut, MessageError, Out, Part, fields_fit, part_of, u16_at, u32_at};

/// Reads the QUERY_INFO response that stands behind the header of `m`.
pub fn read_query_info_response(m: &[u8]) -> Result<QueryInfoResponse<'_>, MessageError>
    ensures { Reads (query_info_response_fault m.now) (SpellsQueryInfoResponse m.now) query_info_response result }
{
    fields_fit(m, &[64, 2, 2, 4])?;
    let size = u16_at(m, 64);
    let output_at = u16_at(m, 66);
    let output_len = u32_at(m, 68);
    if size != 9 {
        return Err(MessageError::BadSize(size));
    }
    let output = part_of(m, output_at as usize, output_len as usize, 72, Part::Output)?;
    Ok(QueryInfoResponse { output })
}

/// The canonical spelling of the QUERY_INFO response, which stands behind a header. The length
/// of the output must fit its field of 4 bytes.
pub fn write_query_info_response(
    alloc: Global,
    v: &QueryInfoResponse<'_>,
) -> Result<Bytes, AllocError>
    requires { length v.now.output.now < 2 ^ 32 }
    ensures { IfOk result (λ b. b ≡ query_info_response_spelling (query_info_response v.now)) }
{
    let mut fixed = FixedOut::<8>::new();
    fixed.put_u16(9);
    fixed.put_u16(72);
    fixed.put_u32(v.output.len() as u32);
    let mut out = Out::new(alloc);
    out.put_slice(&fixed.finish())?;
    out.put_slice(v.output)?;
    Ok(out.finish())
}
