ghost use Rattle.std.specs.Prelude.{◌≡◌, IfOk};
ghost use Rattle.spec_wire.specs.messages.Fault.{Reads};
ghost use Rattle.spec_wire.specs.messages.FileClasses.{SpellsFileStandardInformation, file_standard_information_fault};
ghost use Rattle.spec_wire.specs.messages.FileClasses.{file_standard_information_spelling};

use spec_wire::FileStandardInformation;
use std::alloc::{AllocError, Global};
use wire_bytes::{Bytes, FixedOut, MessageError, fields_fit, u8_at, u32_at, u64_at};

/// Reads the FileStandardInformation that `m` begins with.
pub fn read_file_standard_information(m: &[u8]) -> Result<FileStandardInformation, MessageError>
    ensures { Reads (file_standard_information_fault m.now) (SpellsFileStandardInformation m.now) (λ v. v) result }
{
    fields_fit(m, &[8, 8, 4, 1, 1, 2])?;
    let allocation_size = u64_at(m, 0);
    let end_of_file = u64_at(m, 8);
    let number_of_links = u32_at(m, 16);
    let delete_pending = u8_at(m, 20);
    let directory = u8_at(m, 21);
    Ok(FileStandardInformation {
        allocation_size,
        end_of_file,
        number_of_links,
        delete_pending,
        directory,
    })
}

/// The canonical spelling of the FileStandardInformation.
pub fn write_file_standard_information(
    alloc: Global,
    v: &FileStandardInformation,
) -> Result<Bytes, AllocError>
    ensures { IfOk result (λ b. b ≡ file_standard_information_spelling v.now) }
{
    let mut fixed = FixedOut::<24>::new();
    fixed.put_u64(v.allocation_size);
    fixed.put_u64(v.end_of_file);
    fixed.put_u32(v.number_of_links);
    fixed.put_u8(v.delete_pending);
    fixed.put_u8(v.directory);
    fixed.put_u16(0);
    Bytes::from_slice(alloc, &fixed.finish())
}
