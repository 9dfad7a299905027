ghost use Rattle.std.specs.Prelude.{◌≡◌, IfOk, ◌<◌, ◌^◌, length};
ghost use Rattle.spec_wire.specs.messages.Fault.{Reads};
ghost use Rattle.spec_wire.specs.messages.FileClasses.{SpellsFileAllInformation, file_all_information_fault, file_all_information_spelling};
ghost use Rattle.wire_info.specs.classes.Views.{file_all_information};

use crate::classes::named::FileAllInformation;
use std::alloc::{AllocError, Global};
use wire_bytes::{
    Bytes, FixedOut, MessageError, Out, Part, fields_fit, part_of, u8_at, u32_at, u64_at,
};

/// Reads the FileAllInformation that `m` begins with.
pub fn read_file_all_information(m: &[u8]) -> Result<FileAllInformation<'_>, MessageError>
    ensures { Reads (file_all_information_fault m.now) (SpellsFileAllInformation m.now) file_all_information result }
{
    // Long by its fields alone: after this one check each of them is a line that can't fail. Booleans stay bytes, so
    // that a value reads back as it was written.
    fields_fit(
        m,
        &[8, 8, 8, 8, 4, 4, 8, 8, 4, 1, 1, 2, 8, 4, 4, 8, 4, 4, 4],
    )?;
    let creation_time = u64_at(m, 0);
    let last_access_time = u64_at(m, 8);
    let last_write_time = u64_at(m, 16);
    let change_time = u64_at(m, 24);
    let file_attributes = u32_at(m, 32);
    let allocation_size = u64_at(m, 40);
    let end_of_file = u64_at(m, 48);
    let number_of_links = u32_at(m, 56);
    let delete_pending = u8_at(m, 60);
    let directory = u8_at(m, 61);
    let index_number = u64_at(m, 64);
    let access_flags = u32_at(m, 76);
    let current_byte_offset = u64_at(m, 80);
    let mode = u32_at(m, 88);
    let name_len = u32_at(m, 96);
    let name = part_of(m, 100, name_len as usize, 100, Part::Name)?;
    Ok(FileAllInformation {
        creation_time,
        last_access_time,
        last_write_time,
        change_time,
        file_attributes,
        allocation_size,
        end_of_file,
        number_of_links,
        delete_pending,
        directory,
        index_number,
        access_flags,
        current_byte_offset,
        mode,
        name,
    })
}

/// The canonical spelling of the FileAllInformation. The length of the name must fit its field
/// of 4 bytes.
pub fn write_file_all_information(
    alloc: Global,
    v: &FileAllInformation<'_>,
) -> Result<Bytes, AllocError>
    requires { length v.now.name.now < 2 ^ 32 }
    ensures { IfOk result (λ b. b ≡ file_all_information_spelling (file_all_information v.now)) }
{
    let mut fixed = FixedOut::<100>::new();
    fixed.put_u64(v.creation_time);
    fixed.put_u64(v.last_access_time);
    fixed.put_u64(v.last_write_time);
    fixed.put_u64(v.change_time);
    fixed.put_u32(v.file_attributes);
    fixed.put_u32(0);
    fixed.put_u64(v.allocation_size);
    fixed.put_u64(v.end_of_file);
    fixed.put_u32(v.number_of_links);
    fixed.put_u8(v.delete_pending);
    fixed.put_u8(v.directory);
    fixed.put_u16(0);
    fixed.put_u64(v.index_number);
    fixed.put_u32(0);
    fixed.put_u32(v.access_flags);
    fixed.put_u64(v.current_byte_offset);
    fixed.put_u32(v.mode);
    fixed.put_u32(0);
    fixed.put_u32(v.name.len() as u32);
    let mut out = Out::new(alloc);
    out.put_slice(&fixed.finish())?;
    out.put_slice(v.name)?;
    Ok(out.finish())
}
