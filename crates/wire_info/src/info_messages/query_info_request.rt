ghost use Rattle.std.specs.Prelude.{◌≡◌, IfOk, ◌<◌, ◌^◌, length};
ghost use Rattle.spec_wire.specs.messages.Fault.{Reads};
ghost use Rattle.spec_wire.specs.messages.QueryInfo.{SpellsQueryInfoRequest, query_info_request_fault, query_info_request_spelling};
ghost use Rattle.wire_info.specs.info_messages.Views.{query_info_request};

use crate::info_messages::known::{check_class, is_query_class};
use crate::info_messages::query_info::QueryInfoRequest;
use std::alloc::{AllocError, Global};
use wire_bytes::{
    Bytes, FixedOut, MessageError, Out, Part, array_at, fields_fit, part_of, told_place, u8_at,
    u16_at, u32_at,
};

/// Reads the QUERY_INFO request that stands behind the header of `m`.
pub fn read_query_info_request(m: &[u8]) -> Result<QueryInfoRequest<'_>, MessageError>
    ensures { Reads (query_info_request_fault m.now) (SpellsQueryInfoRequest m.now) query_info_request result }
{
    fields_fit(m, &[64, 2, 1, 1, 4, 2, 2, 4, 4, 4, 16])?;
    let size = u16_at(m, 64);
    let info_type = u8_at(m, 66);
    let file_info_class = u8_at(m, 67);
    let output_buffer_length = u32_at(m, 68);
    let input_at = u16_at(m, 72);
    let input_len = u32_at(m, 76);
    let additional_information = u32_at(m, 80);
    let flags = u32_at(m, 84);
    let file_id = array_at::<16>(m, 88);
    if size != 41 {
        return Err(MessageError::BadSize(size));
    }
    check_class(is_query_class(info_type, file_info_class), file_info_class)?;
    let input = part_of(m, input_at as usize, input_len as usize, 104, Part::Input)?;
    Ok(QueryInfoRequest {
        info_type,
        file_info_class,
        output_buffer_length,
        additional_information,
        flags,
        file_id,
        input,
    })
}

/// The canonical spelling of the QUERY_INFO request, which stands behind a header. The length
/// of the input must fit its field of 4 bytes.
pub fn write_query_info_request(
    alloc: Global,
    v: &QueryInfoRequest<'_>,
) -> Result<Bytes, AllocError>
    requires { length v.now.input.now < 2 ^ 32 }
    ensures { IfOk result (λ b. b ≡ query_info_request_spelling (query_info_request v.now)) }
{
    let mut fixed = FixedOut::<40>::new();
    fixed.put_u16(41);
    fixed.put_u8(v.info_type);
    fixed.put_u8(v.file_info_class);
    fixed.put_u32(v.output_buffer_length);
    fixed.put_u16(told_place(v.input.len(), 104) as u16);
    fixed.put_u16(0);
    fixed.put_u32(v.input.len() as u32);
    fixed.put_u32(v.additional_information);
    fixed.put_u32(v.flags);
    fixed.put_slice(&v.file_id);
    let mut out = Out::new(alloc);
    out.put_slice(&fixed.finish())?;
    out.put_slice(v.input)?;
    Ok(out.finish())
}
