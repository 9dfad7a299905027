ghost use Rattle.std.specs.Prelude.{◌≡◌, IfOk, ◌<◌, ◌^◌, length};
ghost use Rattle.spec_wire.specs.messages.Fault.{Reads};
ghost use Rattle.spec_wire.specs.messages.QueryDirectory.{SpellsQueryDirectoryRequest, query_directory_request_fault};
ghost use Rattle.spec_wire.specs.messages.QueryDirectory.{query_directory_request_spelling};
ghost use Rattle.wire_info.specs.info_messages.Views.{query_directory_request};

use crate::info_messages::known::{check_class, is_directory_class};
use crate::info_messages::query_directory::QueryDirectoryRequest;
use std::alloc::{AllocError, Global};
use wire_bytes::{
    Bytes, FixedOut, MessageError, Out, Part, array_at, fields_fit, part_of, told_place, u8_at,
    u16_at, u32_at,
};

/// Reads the QUERY_DIRECTORY request that stands behind the header of `m`.
pub fn read_query_directory_request(m: &[u8]) -> Result<QueryDirectoryRequest<'_>, MessageError>
    ensures { Reads (query_directory_request_fault m.now) (SpellsQueryDirectoryRequest m.now) query_directory_request result }
{
    fields_fit(m, &[64, 2, 1, 1, 4, 16, 2, 2, 4])?;
    let size = u16_at(m, 64);
    let file_information_class = u8_at(m, 66);
    let flags = u8_at(m, 67);
    let file_index = u32_at(m, 68);
    let file_id = array_at::<16>(m, 72);
    let name_at = u16_at(m, 88);
    let name_len = u16_at(m, 90);
    let output_buffer_length = u32_at(m, 92);
    if size != 33 {
        return Err(MessageError::BadSize(size));
    }
    check_class(
        is_directory_class(file_information_class),
        file_information_class,
    )?;
    let name = part_of(m, name_at as usize, name_len as usize, 96, Part::Name)?;
    Ok(QueryDirectoryRequest {
        file_information_class,
        flags,
        file_index,
        file_id,
        output_buffer_length,
        name,
    })
}

/// The canonical spelling of the QUERY_DIRECTORY request, which stands behind a header. The
/// length of the name must fit its field of 2 bytes.
pub fn write_query_directory_request(
    alloc: Global,
    v: &QueryDirectoryRequest<'_>,
) -> Result<Bytes, AllocError>
    requires { length v.now.name.now < 2 ^ 16 }
    ensures { IfOk result (λ b. b ≡ query_directory_request_spelling (query_directory_request v.now)) }
{
    let mut fixed = FixedOut::<32>::new();
    fixed.put_u16(33);
    fixed.put_u8(v.file_information_class);
    fixed.put_u8(v.flags);
    fixed.put_u32(v.file_index);
    fixed.put_slice(&v.file_id);
    fixed.put_u16(told_place(v.name.len(), 96) as u16);
    fixed.put_u16(v.name.len() as u16);
    fixed.put_u32(v.output_buffer_length);
    let mut out = Out::new(alloc);
    out.put_slice(&fixed.finish())?;
    out.put_slice(v.name)?;
    Ok(out.finish())
}
