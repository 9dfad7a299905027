ghost use Rattle.std.specs.Prelude.{◌≡◌, IfOk};
ghost use Rattle.spec_wire.specs.messages.Fault.{Reads};
ghost use Rattle.spec_wire.specs.messages.FileClasses.{SpellsFileEaInformation, file_ea_information_fault};
ghost use Rattle.spec_wire.specs.messages.FileClasses.{file_ea_information_spelling};

use spec_wire::FileEaInformation;
use std::alloc::{AllocError, Global};
use wire_bytes::{Bytes, MessageError, Out, fields_fit, u32_at};

/// Reads the FileEaInformation that `m` begins with.
pub fn read_file_ea_information(m: &[u8]) -> Result<FileEaInformation, MessageError>
    ensures { Reads (file_ea_information_fault m.now) (SpellsFileEaInformation m.now) (λ v. v) result }
{
    fields_fit(m, &[4])?;
    let ea_size = u32_at(m, 0);
    Ok(FileEaInformation { ea_size })
}

/// The canonical spelling of the FileEaInformation.
pub fn write_file_ea_information(alloc: Global, v: &FileEaInformation) -> Result<Bytes, AllocError>
    ensures { IfOk result (λ b. b ≡ file_ea_information_spelling v.now) }
{
    let mut out = Out::new(alloc);
    out.put_u32(v.ea_size)?;
    Ok(out.finish())
}
