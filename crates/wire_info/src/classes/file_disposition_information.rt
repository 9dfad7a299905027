ghost use Rattle.std.specs.Prelude.{◌≡◌, IfOk};
ghost use Rattle.spec_wire.specs.messages.Fault.{Reads};
ghost use Rattle.spec_wire.specs.messages.FileClasses.{SpellsFileDispositionInformation, file_disposition_information_fault};
ghost use Rattle.spec_wire.specs.messages.FileClasses.{file_disposition_information_spelling};

use spec_wire::FileDispositionInformation;
use std::alloc::{AllocError, Global};
use wire_bytes::{Bytes, MessageError, Out, fields_fit, u8_at};

/// Reads the FileDispositionInformation that `m` begins with.
pub fn read_file_disposition_information(
    m: &[u8],
) -> Result<FileDispositionInformation, MessageError>
    ensures { Reads (file_disposition_information_fault m.now) (SpellsFileDispositionInformation m.now) (λ v. v) result }
{
    fields_fit(m, &[1])?;
    let delete_pending = u8_at(m, 0);
    Ok(FileDispositionInformation { delete_pending })
}

/// The canonical spelling of the FileDispositionInformation.
pub fn write_file_disposition_information(
    alloc: Global,
    v: &FileDispositionInformation,
) -> Result<Bytes, AllocError>
    ensures { IfOk result (λ b. b ≡ file_disposition_information_spelling v.now) }
{
    let mut out = Out::new(alloc);
    out.put_u8(v.delete_pending)?;
    Ok(out.finish())
}
