ghost use Rattle.std.specs.Prelude.{◌≡◌, IfOk};
ghost use Rattle.spec_wire.specs.messages.Fault.{Reads};
ghost use Rattle.spec_wire.specs.messages.FileClasses.{SpellsFileEndOfFileInformation, file_end_of_file_information_fault};
ghost use Rattle.spec_wire.specs.messages.FileClasses.{file_end_of_file_information_spelling};

use spec_wire::FileEndOfFileInformation;
use std::alloc::{AllocError, Global};
use wire_bytes::{Bytes, MessageError, Out, fields_fit, u64_at};

/// Reads the FileEndOfFileInformation that `m` begins with.
pub fn read_file_end_of_file_information(m: &[u8]) -> Result<FileEndOfFileInformation, MessageError>
    ensures { Reads (file_end_of_file_information_fault m.now) (SpellsFileEndOfFileInformation m.now) (λ v. v) result }
{
    fields_fit(m, &[8])?;
    let end_of_file = u64_at(m, 0);
    Ok(FileEndOfFileInformation { end_of_file })
}

/// The canonical spelling of the FileEndOfFileInformation.
pub fn write_file_end_of_file_information(
    alloc: Global,
    v: &FileEndOfFileInformation,
) -> Result<Bytes, AllocError>
    ensures { IfOk result (λ b. b ≡ file_end_of_file_information_spelling v.now) }
{
    let mut out = Out::new(alloc);
    out.put_u64(v.end_of_file)?;
    Ok(out.finish())
}
