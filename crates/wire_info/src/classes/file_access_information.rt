ghost use Rattle.std.specs.Prelude.{◌≡◌, IfOk};
ghost use Rattle.spec_wire.specs.messages.Fault.{Reads};
ghost use Rattle.spec_wire.specs.messages.FileClasses.{SpellsFileAccessInformation, file_access_information_fault};
ghost use Rattle.spec_wire.specs.messages.FileClasses.{file_access_information_spelling};

use spec_wire::FileAccessInformation;
use std::alloc::{AllocError, Global};
use wire_bytes::{Bytes, MessageError, Out, fields_fit, u32_at};

/// Reads the FileAccessInformation that `m` begins with.
pub fn read_file_access_information(m: &[u8]) -> Result<FileAccessInformation, MessageError>
    ensures { Reads (file_access_information_fault m.now) (SpellsFileAccessInformation m.now) (λ v. v) result }
{
    fields_fit(m, &[4])?;
    let access_flags = u32_at(m, 0);
    Ok(FileAccessInformation { access_flags })
}

/// The canonical spelling of the FileAccessInformation.
pub fn write_file_access_information(
    alloc: Global,
    v: &FileAccessInformation,
) -> Result<Bytes, AllocError>
    ensures { IfOk result (λ b. b ≡ file_access_information_spelling v.now) }
{
    let mut out = Out::new(alloc);
    out.put_u32(v.access_flags)?;
    Ok(out.finish())
}
