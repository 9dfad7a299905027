ghost use Rattle.std.specs.Prelude.{◌≡◌, IfOk, ◌<◌, ◌^◌, length};
ghost use Rattle.spec_wire.specs.messages.Fault.{Reads};
ghost use Rattle.spec_wire.specs.messages.SetInfo.{SpellsSetInfoRequest, set_info_request_fault, set_info_request_spelling};
ghost use Rattle.wire_info.specs.info_messages.Views.{set_info_request};

use crate::info_messages::known::{check_class, is_set_class};
use crate::info_messages::set_info::SetInfoRequest;
use std::alloc::{AllocError, Global};
use wire_bytes::{
    Bytes, FixedOut, MessageError, Out, Part, array_at, fields_fit, part_of, u8_at, u16_at, u32_at,
};

/// Reads the SET_INFO request that stands behind the header of `m`.
pub fn read_set_info_request(m: &[u8]) -> Result<SetInfoRequest<'_>, MessageError>
    ensures { Reads (set_info_request_fault m.now) (SpellsSetInfoRequest m.now) set_info_request result }
{
    // Long by its fields alone: after this one check each of them is a line that can't fail.
    fields_fit(m, &[64, 2, 1, 1, 4, 2, 2, 4, 16])?;
    let size = u16_at(m, 64);
    let info_type = u8_at(m, 66);
    let file_info_class = u8_at(m, 67);
    let payload_len = u32_at(m, 68);
    let payload_at = u16_at(m, 72);
    let additional_information = u32_at(m, 76);
    let file_id = array_at::<16>(m, 80);
    if size != 33 {
        return Err(MessageError::BadSize(size));
    }
    // Before the payload is looked at: an unknown class is INVALID_INFO_CLASS, whatever stands after it.
    check_class(is_set_class(info_type, file_info_class), file_info_class)?;
    let payload = part_of(
        m,
        payload_at as usize,
        payload_len as usize,
        96,
        Part::Payload,
    )?;
    Ok(SetInfoRequest {
        info_type,
        file_info_class,
        additional_information,
        file_id,
        payload,
    })
}

/// The canonical spelling of the SET_INFO request, which stands behind a header. The length of
/// the payload must fit its field of 4 bytes.
pub fn write_set_info_request(alloc: Global, v: &SetInfoRequest<'_>) -> Result<Bytes, AllocError>
    requires { length v.now.payload.now < 2 ^ 32 }
    ensures { IfOk result (λ b. b ≡ set_info_request_spelling (set_info_request v.now)) }
{
    let mut fixed = FixedOut::<32>::new();
    fixed.put_u16(33);
    fixed.put_u8(v.info_type);
    fixed.put_u8(v.file_info_class);
    fixed.put_u32(v.payload.len() as u32);
    fixed.put_u16(96);
    fixed.put_u16(0);
    fixed.put_u32(v.additional_information);
    fixed.put_slice(&v.file_id);
    let mut out = Out::new(alloc);
    out.put_slice(&fixed.finish())?;
    out.put_slice(v.payload)?;
    Ok(out.finish())
}
