ghost use Rattle.std.specs.Prelude.{◌≡◌, IfOk, ◌<◌, ◌^◌, length};
ghost use Rattle.spec_wire.specs.messages.Fault.{Reads};
ghost use Rattle.spec_wire.specs.messages.FileClasses.{SpellsFileStreamInformation, file_stream_information_fault};
ghost use Rattle.spec_wire.specs.messages.FileClasses.{file_stream_information_spelling};
ghost use Rattle.wire_info.specs.classes.Views.{file_stream_information};

use crate::classes::named::FileStreamInformation;
use std::alloc::{AllocError, Global};
use wire_bytes::{Bytes, FixedOut, MessageError, Out, Part, fields_fit, part_of, u32_at, u64_at};

/// Reads the FileStreamInformation that `m` begins with.
pub fn read_file_stream_information(m: &[u8]) -> Result<FileStreamInformation<'_>, MessageError>
    ensures { Reads (file_stream_information_fault m.now) (SpellsFileStreamInformation m.now) file_stream_information result }
{
    fields_fit(m, &[4, 4, 8, 8])?;
    let next_entry_offset = u32_at(m, 0);
    let stream_size = u64_at(m, 8);
    let stream_allocation_size = u64_at(m, 16);
    let name_len = u32_at(m, 4);
    let name = part_of(m, 24, name_len as usize, 24, Part::Name)?;
    Ok(FileStreamInformation {
        next_entry_offset,
        stream_size,
        stream_allocation_size,
        name,
    })
}

/// The canonical spelling of the FileStreamInformation. The length of the name must fit its field of 4 bytes.
pub fn write_file_stream_information(
    alloc: Global,
    v: &FileStreamInformation<'_>,
) -> Result<Bytes, AllocError>
    requires { length v.now.name.now < 2 ^ 32 }
    ensures { IfOk result (λ b. b ≡ file_stream_information_spelling (file_stream_information v.now)) }
{
    let mut fixed = FixedOut::<24>::new();
    fixed.put_u32(v.next_entry_offset);
    fixed.put_u32(v.name.len() as u32);
    fixed.put_u64(v.stream_size);
    fixed.put_u64(v.stream_allocation_size);
    let mut out = Out::new(alloc);
    out.put_slice(&fixed.finish())?;
    out.put_slice(v.name)?;
    Ok(out.finish())
}
