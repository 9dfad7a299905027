ghost use Rattle.std.specs.Prelude.{◌≡◌, IfOk, ◌<◌, ◌^◌, length, ◌+◌, ◌≤◌};
ghost use Rattle.spec_wire.specs.messages.Fault.{Reads};
ghost use Rattle.spec_wire.specs.messages.Ioctl.{SpellsIoctlResponse, ioctl_response_fault, ioctl_response_spelling};
ghost use Rattle.wire_info.specs.info_messages.Views.{ioctl_response};

use crate::info_messages::ioctl::IoctlResponse;
use std::alloc::{AllocError, Global};
use wire_bytes::{
    Bytes, FixedOut, MessageError, Out, Part, array_at, fields_fit, gap_before, part_of,
    told_place, u16_at, u32_at,
};

/// Reads the IOCTL response that stands behind the header of `m`.
pub fn read_ioctl_response(m: &[u8]) -> Result<IoctlResponse<'_>, MessageError>
    ensures { Reads (ioctl_response_fault m.now) (SpellsIoctlResponse m.now) ioctl_response result }
{
    // Long by its fields alone: after this one check each of them is a line that can't fail.
    fields_fit(m, &[64, 2, 2, 4, 16, 4, 4, 4, 4, 4, 4])?;
    let size = u16_at(m, 64);
    let ctl_code = u32_at(m, 68);
    let file_id = array_at::<16>(m, 72);
    let input_at = u32_at(m, 88);
    let input_len = u32_at(m, 92);
    let output_at = u32_at(m, 96);
    let output_len = u32_at(m, 100);
    let flags = u32_at(m, 104);
    if size != 49 {
        return Err(MessageError::BadSize(size));
    }
    let input = part_of(m, input_at as usize, input_len as usize, 112, Part::Input)?;
    let output = part_of(
        m,
        output_at as usize,
        output_len as usize,
        112,
        Part::Output,
    )?;
    Ok(IoctlResponse {
        ctl_code,
        file_id,
        flags,
        input,
        output,
    })
}

/// The canonical spelling of the IOCTL response, which stands behind a header. The input must
/// be shorter than 2^32 by 128 bytes, and the length of the output must fit its field of 4
/// bytes.
pub fn write_ioctl_response(alloc: Global, v: &IoctlResponse<'_>) -> Result<Bytes, AllocError>
    requires input { length v.now.input.now + 128 ≤ 2 ^ 32 }
    requires output { length v.now.output.now < 2 ^ 32 }
    ensures { IfOk result (λ b. b ≡ ioctl_response_spelling (ioctl_response v.now)) }
{
    let gap = gap_before(v.output.len(), v.input.len());
    let output_at = 112 + v.input.len() as u32 + gap as u32;
    let mut fixed = FixedOut::<48>::new();
    fixed.put_u16(49);
    fixed.put_u16(0);
    fixed.put_u32(v.ctl_code);
    fixed.put_slice(&v.file_id);
    fixed.put_u32(told_place(v.input.len(), 112));
    fixed.put_u32(v.input.len() as u32);
    fixed.put_u32(told_place(v.output.len(), output_at));
    fixed.put_u32(v.output.len() as u32);
    fixed.put_u32(v.flags);
    fixed.put_u32(0);
    let mut out = Out::new(alloc);
    out.put_slice(&fixed.finish())?;
    out.put_slice(v.input)?;
    out.put_zeros(gap)?;
    out.put_slice(v.output)?;
    Ok(out.finish())
}
