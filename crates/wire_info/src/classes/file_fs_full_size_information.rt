ghost use Rattle.std.specs.Prelude.{◌≡◌, IfOk};
ghost use Rattle.spec_wire.specs.messages.Fault.{Reads};
ghost use Rattle.spec_wire.specs.messages.VolumeClasses.{SpellsFileFsFullSizeInformation, file_fs_full_size_information_fault};
ghost use Rattle.spec_wire.specs.messages.VolumeClasses.{file_fs_full_size_information_spelling};

use spec_wire::FileFsFullSizeInformation;
use std::alloc::{AllocError, Global};
use wire_bytes::{Bytes, FixedOut, MessageError, fields_fit, u32_at, u64_at};

/// Reads the FileFsFullSizeInformation that `m` begins with.
pub fn read_file_fs_full_size_information(
    m: &[u8],
) -> Result<FileFsFullSizeInformation, MessageError>
    ensures { Reads (file_fs_full_size_information_fault m.now) (SpellsFileFsFullSizeInformation m.now) (λ v. v) result }
{
    fields_fit(m, &[8, 8, 8, 4, 4])?;
    let total_allocation_units = u64_at(m, 0);
    let caller_available_allocation_units = u64_at(m, 8);
    let actual_available_allocation_units = u64_at(m, 16);
    let sectors_per_allocation_unit = u32_at(m, 24);
    let bytes_per_sector = u32_at(m, 28);
    Ok(FileFsFullSizeInformation {
        total_allocation_units,
        caller_available_allocation_units,
        actual_available_allocation_units,
        sectors_per_allocation_unit,
        bytes_per_sector,
    })
}

/// The canonical spelling of the FileFsFullSizeInformation.
pub fn write_file_fs_full_size_information(
    alloc: Global,
    v: &FileFsFullSizeInformation,
) -> Result<Bytes, AllocError>
    ensures { IfOk result (λ b. b ≡ file_fs_full_size_information_spelling v.now) }
{
    let mut fixed = FixedOut::<32>::new();
    fixed.put_u64(v.total_allocation_units);
    fixed.put_u64(v.caller_available_allocation_units);
    fixed.put_u64(v.actual_available_allocation_units);
    fixed.put_u32(v.sectors_per_allocation_unit);
    fixed.put_u32(v.bytes_per_sector);
    Bytes::from_slice(alloc, &fixed.finish())
}
