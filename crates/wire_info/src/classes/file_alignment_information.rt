ghost use Rattle.std.specs.Prelude.{◌≡◌, IfOk};
ghost use Rattle.spec_wire.specs.messages.Fault.{Reads};
ghost use Rattle.spec_wire.specs.messages.FileClasses.{SpellsFileAlignmentInformation, file_alignment_information_fault};
ghost use Rattle.spec_wire.specs.messages.FileClasses.{file_alignment_information_spelling};

use spec_wire::FileAlignmentInformation;
use std::alloc::{AllocError, Global};
use wire_bytes::{Bytes, MessageError, Out, fields_fit, u32_at};

/// Reads the FileAlignmentInformation that `m` begins with.
pub fn read_file_alignment_information(m: &[u8]) -> Result<FileAlignmentInformation, MessageError>
    ensures { Reads (file_alignment_information_fault m.now) (SpellsFileAlignmentInformation m.now) (λ v. v) result }
{
    fields_fit(m, &[4])?;
    let alignment_requirement = u32_at(m, 0);
    Ok(FileAlignmentInformation {
        alignment_requirement,
    })
}

/// The canonical spelling of the FileAlignmentInformation.
pub fn write_file_alignment_information(
    alloc: Global,
    v: &FileAlignmentInformation,
) -> Result<Bytes, AllocError>
    ensures { IfOk result (λ b. b ≡ file_alignment_information_spelling v.now) }
{
    let mut out = Out::new(alloc);
    out.put_u32(v.alignment_requirement)?;
    Ok(out.finish())
}
