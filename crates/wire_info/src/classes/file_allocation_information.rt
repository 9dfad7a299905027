ghost use Rattle.std.specs.Prelude.{◌≡◌, IfOk};
ghost use Rattle.spec_wire.specs.messages.Fault.{Reads};
ghost use Rattle.spec_wire.specs.messages.FileClasses.{SpellsFileAllocationInformation, file_allocation_information_fault};
ghost use Rattle.spec_wire.specs.messages.FileClasses.{file_allocation_information_spelling};

use spec_wire::FileAllocationInformation;
use std::alloc::{AllocError, Global};
use wire_bytes::{Bytes, MessageError, Out, fields_fit, u64_at};

/// Reads the FileAllocationInformation that `m` begins with.
pub fn read_file_allocation_information(m: &[u8]) -> Result<FileAllocationInformation, MessageError>
    ensures { Reads (file_allocation_information_fault m.now) (SpellsFileAllocationInformation m.now) (λ v. v) result }
{
    fields_fit(m, &[8])?;
    let allocation_size = u64_at(m, 0);
    Ok(FileAllocationInformation { allocation_size })
}

/// The canonical spelling of the FileAllocationInformation.
pub fn write_file_allocation_information(
    alloc: Global,
    v: &FileAllocationInformation,
) -> Result<Bytes, AllocError>
    ensures { IfOk result (λ b. b ≡ file_allocation_information_spelling v.now) }
{
    let mut out = Out::new(alloc);
    out.put_u64(v.allocation_size)?;
    Ok(out.finish())
}
