ghost use Rattle.std.specs.Prelude.{◌≡◌, IfOk, ◌<◌, ◌^◌, length};
ghost use Rattle.spec_wire.specs.messages.Fault.{Reads};
ghost use Rattle.spec_wire.specs.messages.FileClasses.{SpellsFileNameInformation, file_name_information_fault};
ghost use Rattle.spec_wire.specs.messages.FileClasses.{file_name_information_spelling};
ghost use Rattle.wire_info.specs.classes.Views.{file_name_information};

use crate::classes::named::FileNameInformation;
use std::alloc::{AllocError, Global};
use wire_bytes::{Bytes, MessageError, Out, Part, fields_fit, part_of, u32_at};

/// Reads the FileNameInformation that `m` begins with.
pub fn read_file_name_information(m: &[u8]) -> Result<FileNameInformation<'_>, MessageError>
    ensures { Reads (file_name_information_fault m.now) (SpellsFileNameInformation m.now) file_name_information result }
{
    fields_fit(m, &[4])?;
    let name_len = u32_at(m, 0);
    let name = part_of(m, 4, name_len as usize, 4, Part::Name)?;
    Ok(FileNameInformation { name })
}

/// The canonical spelling of the FileNameInformation. The length of the name must fit its field of 4 bytes.
pub fn write_file_name_information(
    alloc: Global,
    v: &FileNameInformation<'_>,
) -> Result<Bytes, AllocError>
    requires { length v.now.name.now < 2 ^ 32 }
    ensures { IfOk result (λ b. b ≡ file_name_information_spelling (file_name_information v.now)) }
{
    let mut out = Out::new(alloc);
    out.put_u32(v.name.len() as u32)?;
    out.put_slice(v.name)?;
    Ok(out.finish())
}
