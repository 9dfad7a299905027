ghost use Rattle.std.specs.Prelude.{◌≡◌, IfOk};
ghost use Rattle.spec_wire.specs.messages.Fault.{Reads};
ghost use Rattle.spec_wire.specs.messages.VolumeClasses.{SpellsFileFsSectorSizeInformation, file_fs_sector_size_information_fault};
ghost use Rattle.spec_wire.specs.messages.VolumeClasses.{file_fs_sector_size_information_spelling};

use spec_wire::FileFsSectorSizeInformation;
use std::alloc::{AllocError, Global};
use wire_bytes::{Bytes, FixedOut, MessageError, fields_fit, u32_at};

/// Reads the FileFsSectorSizeInformation that `m` begins with.
pub fn read_file_fs_sector_size_information(
    m: &[u8],
) -> Result<FileFsSectorSizeInformation, MessageError>
    ensures { Reads (file_fs_sector_size_information_fault m.now) (SpellsFileFsSectorSizeInformation m.now) (λ v. v) result }
{
    fields_fit(m, &[4, 4, 4, 4, 4, 4, 4])?;
    let logical_bytes_per_sector = u32_at(m, 0);
    let physical_bytes_per_sector_for_atomicity = u32_at(m, 4);
    let physical_bytes_per_sector_for_performance = u32_at(m, 8);
    let file_system_effective_physical_bytes_per_sector_for_atomicity = u32_at(m, 12);
    let flags = u32_at(m, 16);
    let byte_offset_for_sector_alignment = u32_at(m, 20);
    let byte_offset_for_partition_alignment = u32_at(m, 24);
    Ok(FileFsSectorSizeInformation {
        logical_bytes_per_sector,
        physical_bytes_per_sector_for_atomicity,
        physical_bytes_per_sector_for_performance,
        file_system_effective_physical_bytes_per_sector_for_atomicity,
        flags,
        byte_offset_for_sector_alignment,
        byte_offset_for_partition_alignment,
    })
}

/// The canonical spelling of the FileFsSectorSizeInformation.
pub fn write_file_fs_sector_size_information(
    alloc: Global,
    v: &FileFsSectorSizeInformation,
) -> Result<Bytes, AllocError>
    ensures { IfOk result (λ b. b ≡ file_fs_sector_size_information_spelling v.now) }
{
    let mut fixed = FixedOut::<28>::new();
    fixed.put_u32(v.logical_bytes_per_sector);
    fixed.put_u32(v.physical_bytes_per_sector_for_atomicity);
    fixed.put_u32(v.physical_bytes_per_sector_for_performance);
    fixed.put_u32(v.file_system_effective_physical_bytes_per_sector_for_atomicity);
    fixed.put_u32(v.flags);
    fixed.put_u32(v.byte_offset_for_sector_alignment);
    fixed.put_u32(v.byte_offset_for_partition_alignment);
    Bytes::from_slice(alloc, &fixed.finish())
}
