ghost use Rattle.std.specs.Prelude.{◌≡◌, IfOk};
ghost use Rattle.spec_wire.specs.messages.Fault.{Reads};
ghost use Rattle.spec_wire.specs.messages.FileClasses.{SpellsFileBasicInformation, file_basic_information_fault};
ghost use Rattle.spec_wire.specs.messages.FileClasses.{file_basic_information_spelling};

use spec_wire::FileBasicInformation;
use std::alloc::{AllocError, Global};
use wire_bytes::{Bytes, FixedOut, MessageError, fields_fit, u32_at, u64_at};

/// Reads the FileBasicInformation that `m` begins with.
pub fn read_file_basic_information(m: &[u8]) -> Result<FileBasicInformation, MessageError>
    ensures { Reads (file_basic_information_fault m.now) (SpellsFileBasicInformation m.now) (λ v. v) result }
{
    fields_fit(m, &[8, 8, 8, 8, 4, 4])?;
    let creation_time = u64_at(m, 0);
    let last_access_time = u64_at(m, 8);
    let last_write_time = u64_at(m, 16);
    let change_time = u64_at(m, 24);
    let file_attributes = u32_at(m, 32);
    Ok(FileBasicInformation {
        creation_time,
        last_access_time,
        last_write_time,
        change_time,
        file_attributes,
    })
}

/// The canonical spelling of the FileBasicInformation.
pub fn write_file_basic_information(
    alloc: Global,
    v: &FileBasicInformation,
) -> Result<Bytes, AllocError>
    ensures { IfOk result (λ b. b ≡ file_basic_information_spelling v.now) }
{
    let mut fixed = FixedOut::<40>::new();
    fixed.put_u64(v.creation_time);
    fixed.put_u64(v.last_access_time);
    fixed.put_u64(v.last_write_time);
    fixed.put_u64(v.change_time);
    fixed.put_u32(v.file_attributes);
    fixed.put_u32(0);
    Bytes::from_slice(alloc, &fixed.finish())
}
