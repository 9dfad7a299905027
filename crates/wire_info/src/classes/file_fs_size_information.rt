ghost use Rattle.std.specs.Prelude.{◌≡◌, IfOk};
ghost use Rattle.spec_wire.specs.messages.Fault.{Reads};
ghost use Rattle.spec_wire.specs.messages.VolumeClasses.{SpellsFileFsSizeInformation, file_fs_size_information_fault};
ghost use Rattle.spec_wire.specs.messages.VolumeClasses.{file_fs_size_information_spelling};

use spec_wire::FileFsSizeInformation;
use std::alloc::{AllocError, Global};
use wire_bytes::{Bytes, FixedOut, MessageError, fields_fit, u32_at, u64_at};

/// Reads the FileFsSizeInformation that `m` begins with.
pub fn read_file_fs_size_information(m: &[u8]) -> Result<FileFsSizeInformation, MessageError>
    ensures { Reads (file_fs_size_information_fault m.now) (SpellsFileFsSizeInformation m.now) (λ v. v) result }
{
    fields_fit(m, &[8, 8, 4, 4])?;
    let total_allocation_units = u64_at(m, 0);
    let available_allocation_units = u64_at(m, 8);
    let sectors_per_allocation_unit = u32_at(m, 16);
    let bytes_per_sector = u32_at(m, 20);
    Ok(FileFsSizeInformation {
        total_allocation_units,
        available_allocation_units,
        sectors_per_allocation_unit,
        bytes_per_sector,
    })
}

/// The canonical spelling of the FileFsSizeInformation.
pub fn write_file_fs_size_information(
    alloc: Global,
    v: &FileFsSizeInformation,
) -> Result<Bytes, AllocError>
    ensures { IfOk result (λ b. b ≡ file_fs_size_information_spelling v.now) }
{
    let mut fixed = FixedOut::<24>::new();
    fixed.put_u64(v.total_allocation_units);
    fixed.put_u64(v.available_allocation_units);
    fixed.put_u32(v.sectors_per_allocation_unit);
    fixed.put_u32(v.bytes_per_sector);
    Bytes::from_slice(alloc, &fixed.finish())
}
