ghost use Rattle.std.specs.Prelude.{◌≡◌, IfOk, ◌<◌, ◌^◌, length};
ghost use Rattle.spec_wire.specs.messages.Fault.{Reads};
ghost use Rattle.spec_wire.specs.messages.CreateResponse.{SpellsCreateResponse, create_response_fault, create_response_spelling};
ghost use Rattle.wire_bytes.specs.file_messages.Views.{create_response};

use crate::byte_lists::{
    Bytes, FixedOut, Out, array_at, fields_fit, u8_at, u16_at, u32_at, u64_at,
};
use crate::file_messages::create::CreateResponse;
use crate::headers::{MessageError, Part, part_of, told_place};
use std::alloc::{AllocError, Global};

/// Reads the CREATE response that stands behind the header of `m`.
pub fn read_create_response(m: &[u8]) -> Result<CreateResponse<'_>, MessageError>
    ensures { Reads (create_response_fault m.now) (SpellsCreateResponse m.now) create_response result }
{
    // Long by its fields alone: after this one check each of them is a line that can't fail.
    fields_fit(m, &[64, 2, 1, 1, 4, 8, 8, 8, 8, 8, 8, 4, 4, 16, 4, 4])?;
    let size = u16_at(m, 64);
    let oplock_level = u8_at(m, 66);
    let flags = u8_at(m, 67);
    let create_action = u32_at(m, 68);
    let creation_time = u64_at(m, 72);
    let last_access_time = u64_at(m, 80);
    let last_write_time = u64_at(m, 88);
    let change_time = u64_at(m, 96);
    let allocation_size = u64_at(m, 104);
    let end_of_file = u64_at(m, 112);
    let file_attributes = u32_at(m, 120);
    let file_id = array_at::<16>(m, 128);
    let contexts_at = u32_at(m, 144);
    let contexts_len = u32_at(m, 148);
    if size != 89 {
        return Err(MessageError::BadSize(size));
    }
    let contexts = part_of(
        m,
        contexts_at as usize,
        contexts_len as usize,
        152,
        Part::Contexts,
    )?;
    Ok(CreateResponse {
        oplock_level,
        flags,
        create_action,
        creation_time,
        last_access_time,
        last_write_time,
        change_time,
        allocation_size,
        end_of_file,
        file_attributes,
        file_id,
        contexts,
    })
}

/// The canonical spelling of the CREATE response, which stands behind a header. The length of
/// the contexts must fit its field of 4 bytes.
pub fn write_create_response(alloc: Global, v: &CreateResponse<'_>) -> Result<Bytes, AllocError>
    requires { length v.now.contexts.now < 2 ^ 32 }
    ensures { IfOk result (λ b. b ≡ create_response_spelling (create_response v.now)) }
{
    let mut fixed = FixedOut::<88>::new();
    fixed.put_u16(89);
    fixed.put_u8(v.oplock_level);
    fixed.put_u8(v.flags);
    fixed.put_u32(v.create_action);
    fixed.put_u64(v.creation_time);
    fixed.put_u64(v.last_access_time);
    fixed.put_u64(v.last_write_time);
    fixed.put_u64(v.change_time);
    fixed.put_u64(v.allocation_size);
    fixed.put_u64(v.end_of_file);
    fixed.put_u32(v.file_attributes);
    fixed.put_u32(0);
    fixed.put_slice(&v.file_id);
    fixed.put_u32(told_place(v.contexts.len(), 152));
    fixed.put_u32(v.contexts.len() as u32);
    let mut out = Out::new(alloc);
    out.put_slice(&fixed.finish())?;
    out.put_slice(v.contexts)?;
    Ok(out.finish())
}
