ghost use Rattle.std.specs.Prelude.{◌≡◌, IfOk, ◌<◌, ◌^◌, length};
ghost use Rattle.spec_wire.specs.messages.Fault.{Reads};
ghost use Rattle.spec_wire.specs.messages.FileClasses.{SpellsFileRenameInformation, file_rename_information_fault};
ghost use Rattle.spec_wire.specs.messages.FileClasses.{file_rename_information_spelling};
ghost use Rattle.wire_info.specs.classes.Views.{file_rename_information};

use crate::classes::named::FileRenameInformation;
use std::alloc::{AllocError, Global};
use wire_bytes::{Bytes, MessageError, Out, Part, fields_fit, part_of, u8_at, u32_at, u64_at};

/// Reads the FileRenameInformation that `m` begins with.
pub fn read_file_rename_information(m: &[u8]) -> Result<FileRenameInformation<'_>, MessageError>
    ensures { Reads (file_rename_information_fault m.now) (SpellsFileRenameInformation m.now) file_rename_information result }
{
    fields_fit(m, &[1, 7, 8, 4])?;
    let replace_if_exists = u8_at(m, 0);
    let root_directory = u64_at(m, 8);
    let name_len = u32_at(m, 16);
    let name = part_of(m, 20, name_len as usize, 20, Part::Name)?;
    Ok(FileRenameInformation {
        replace_if_exists,
        root_directory,
        name,
    })
}

/// The canonical spelling of the FileRenameInformation. The length of the name must fit its
/// field of 4 bytes.
pub fn write_file_rename_information(
    alloc: Global,
    v: &FileRenameInformation<'_>,
) -> Result<Bytes, AllocError>
    requires { length v.now.name.now < 2 ^ 32 }
    ensures { IfOk result (λ b. b ≡ file_rename_information_spelling (file_rename_information v.now)) }
{
    let mut out = Out::new(alloc);
    out.put_u8(v.replace_if_exists)?;
    out.put_zeros(7)?;
    out.put_u64(v.root_directory)?;
    out.put_u32(v.name.len() as u32)?;
    out.put_slice(v.name)?;
    Ok(out.finish())
}
