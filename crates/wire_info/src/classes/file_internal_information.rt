ghost use Rattle.std.specs.Prelude.{◌≡◌, IfOk};
ghost use Rattle.spec_wire.specs.messages.Fault.{Reads};
ghost use Rattle.spec_wire.specs.messages.FileClasses.{SpellsFileInternalInformation, file_internal_information_fault};
ghost use Rattle.spec_wire.specs.messages.FileClasses.{file_internal_information_spelling};

use spec_wire::FileInternalInformation;
use std::alloc::{AllocError, Global};
use wire_bytes::{Bytes, MessageError, Out, fields_fit, u64_at};

/// Reads the FileInternalInformation that `m` begins with.
pub fn read_file_internal_information(m: &[u8]) -> Result<FileInternalInformation, MessageError>
    ensures { Reads (file_internal_information_fault m.now) (SpellsFileInternalInformation m.now) (λ v. v) result }
{
    fields_fit(m, &[8])?;
    let index_number = u64_at(m, 0);
    Ok(FileInternalInformation { index_number })
}

/// The canonical spelling of the FileInternalInformation.
pub fn write_file_internal_information(
    alloc: Global,
    v: &FileInternalInformation,
) -> Result<Bytes, AllocError>
    ensures { IfOk result (λ b. b ≡ file_internal_information_spelling v.now) }
{
    let mut out = Out::new(alloc);
    out.put_u64(v.index_number)?;
    Ok(out.finish())
}
