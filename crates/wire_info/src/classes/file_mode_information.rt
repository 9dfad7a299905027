ghost use Rattle.std.specs.Prelude.{◌≡◌, IfOk};
ghost use Rattle.spec_wire.specs.messages.Fault.{Reads};
ghost use Rattle.spec_wire.specs.messages.FileClasses.{SpellsFileModeInformation, file_mode_information_fault};
ghost use Rattle.spec_wire.specs.messages.FileClasses.{file_mode_information_spelling};

use spec_wire::FileModeInformation;
use std::alloc::{AllocError, Global};
use wire_bytes::{Bytes, MessageError, Out, fields_fit, u32_at};

/// Reads the FileModeInformation that `m` begins with.
pub fn read_file_mode_information(m: &[u8]) -> Result<FileModeInformation, MessageError>
    ensures { Reads (file_mode_information_fault m.now) (SpellsFileModeInformation m.now) (λ v. v) result }
{
    fields_fit(m, &[4])?;
    let mode = u32_at(m, 0);
    Ok(FileModeInformation { mode })
}

/// The canonical spelling of the FileModeInformation.
pub fn write_file_mode_information(
    alloc: Global,
    v: &FileModeInformation,
) -> Result<Bytes, AllocError>
    ensures { IfOk result (λ b. b ≡ file_mode_information_spelling v.now) }
{
    let mut out = Out::new(alloc);
    out.put_u32(v.mode)?;
    Ok(out.finish())
}
