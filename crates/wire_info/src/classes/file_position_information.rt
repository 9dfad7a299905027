ghost use Rattle.std.specs.Prelude.{◌≡◌, IfOk};
ghost use Rattle.spec_wire.specs.messages.Fault.{Reads};
ghost use Rattle.spec_wire.specs.messages.FileClasses.{SpellsFilePositionInformation, file_position_information_fault};
ghost use Rattle.spec_wire.specs.messages.FileClasses.{file_position_information_spelling};

use spec_wire::FilePositionInformation;
use std::alloc::{AllocError, Global};
use wire_bytes::{Bytes, MessageError, Out, fields_fit, u64_at};

/// Reads the FilePositionInformation that `m` begins with.
pub fn read_file_position_information(m: &[u8]) -> Result<FilePositionInformation, MessageError>
    ensures { Reads (file_position_information_fault m.now) (SpellsFilePositionInformation m.now) (λ v. v) result }
{
    fields_fit(m, &[8])?;
    let current_byte_offset = u64_at(m, 0);
    Ok(FilePositionInformation {
        current_byte_offset,
    })
}

/// The canonical spelling of the FilePositionInformation.
pub fn write_file_position_information(
    alloc: Global,
    v: &FilePositionInformation,
) -> Result<Bytes, AllocError>
    ensures { IfOk result (λ b. b ≡ file_position_information_spelling v.now) }
{
    let mut out = Out::new(alloc);
    out.put_u64(v.current_byte_offset)?;
    Ok(out.finish())
}
