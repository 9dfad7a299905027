ghost use Rattle.std.specs.Prelude.{◌≡◌, ◌+◌, ◌<◌, ◌^◌, length, IfOk};
ghost use Rattle.spec_wire.specs.messages.Table.{filler};
ghost use Rattle.spec_wire.specs.messages.Fault.{Reads};
ghost use Rattle.spec_wire.specs.messages.Create.{SpellsCreateRequest, create_request_fault, create_request_spelling};
ghost use Rattle.spec_wire.specs.messages.Create.{contexts_gap, contexts_place};
ghost use Rattle.wire_bytes.specs.file_messages.Views.{message_create_request};

use crate::byte_lists::{Bytes, FixedOut, Out, fields_fit, u8_at, u16_at, u32_at};
use crate::file_messages::create::CreateRequest;
use crate::headers::{MessageError, Part, part_of};
use std::alloc::{AllocError, Global};

/// Reads the CREATE request that stands behind the header of `m`.
pub fn read_create_request(m: &[u8]) -> Result<CreateRequest<'_>, MessageError>
    ensures { Reads (create_request_fault m.now) (SpellsCreateRequest m.now) message_create_request result }
{
    // Long by its fields alone: after this one check each of them is a line that can't fail.
    fields_fit(m, &[64, 2, 1, 1, 4, 8, 8, 4, 4, 4, 4, 4, 2, 2, 4, 4])?;
    let size = u16_at(m, 64);
    let requested_oplock_level = u8_at(m, 67);
    let impersonation_level = u32_at(m, 68);
    let desired_access = u32_at(m, 88);
    let file_attributes = u32_at(m, 92);
    let share_access = u32_at(m, 96);
    let create_disposition = u32_at(m, 100);
    let create_options = u32_at(m, 104);
    let name_at = u16_at(m, 108);
    let name_len = u16_at(m, 110);
    let contexts_at = u32_at(m, 112);
    let contexts_len = u32_at(m, 116);
    if size != 57 {
        return Err(MessageError::BadSize(size));
    }
    let name = part_of(m, name_at as usize, name_len as usize, 120, Part::Name)?;
    let contexts = part_of(
        m,
        contexts_at as usize,
        contexts_len as usize,
        120,
        Part::Contexts,
    )?;
    Ok(CreateRequest {
        requested_oplock_level,
        impersonation_level,
        desired_access,
        file_attributes,
        share_access,
        create_disposition,
        create_options,
        name,
        contexts,
    })
}

// The zero bytes between the name and the contexts.
fn gap_of(v: &CreateRequest<'_>) -> u8
    ensures { result ≡ contexts_gap (message_create_request v.now) }
{
    if v.contexts.is_empty() {
        return 0;
    }
    ((8 - v.name.len() % 8) % 8) as u8
}

// The place of the contexts.
fn place_of(v: &CreateRequest<'_>) -> u32
    requires { length v.now.name.now < 2 ^ 16 }
    ensures { result ≡ contexts_place (message_create_request v.now) }
{
    // Not the canonical place, because some servers refuse an offset that isn't a multiple of 8 even with length 0.
    if v.contexts.is_empty() {
        return 0;
    }
    let name_len = v.name.len() as u32;
    120 + name_len + (8 - name_len % 8) % 8
}

// The bytes that stand where the name and the contexts are empty.
fn filler_of(v: &CreateRequest<'_>) -> u8
    ensures { result ≡ filler (length v.now.name.now + length v.now.contexts.now) }
{
    if v.name.is_empty() && v.contexts.is_empty() {
        1
    } else {
        0
    }
}

/// The canonical spelling of the CREATE request, which stands behind a header. The lengths of the name
/// and of the contexts must fit their fields of 2 and 4 bytes.
pub fn write_create_request(alloc: Global, v: &CreateRequest<'_>) -> Result<Bytes, AllocError>
    requires name { length v.now.name.now < 2 ^ 16 }
    requires contexts { length v.now.contexts.now < 2 ^ 32 }
    ensures { IfOk result (λ b. b ≡ create_request_spelling (message_create_request v.now)) }
{
    let mut fixed = FixedOut::<56>::new();
    fixed.put_u16(57);
    fixed.put_u8(0);
    fixed.put_u8(v.requested_oplock_level);
    fixed.put_u32(v.impersonation_level);
    fixed.put_u64(0);
    fixed.put_u64(0);
    fixed.put_u32(v.desired_access);
    fixed.put_u32(v.file_attributes);
    fixed.put_u32(v.share_access);
    fixed.put_u32(v.create_disposition);
    fixed.put_u32(v.create_options);
    fixed.put_u16(120);
    fixed.put_u16(v.name.len() as u16);
    fixed.put_u32(place_of(v));
    fixed.put_u32(v.contexts.len() as u32);
    let mut out = Out::new(alloc);
    out.put_slice(&fixed.finish())?;
    out.put_slice(v.name)?;
    out.put_zeros(gap_of(v))?;
    out.put_slice(v.contexts)?;
    out.put_zeros(filler_of(v))?;
    Ok(out.finish())
}
