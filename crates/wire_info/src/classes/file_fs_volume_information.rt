ghost use Rattle.std.specs.Prelude.{◌≡◌, IfOk, ◌<◌, ◌^◌, length};
ghost use Rattle.spec_wire.specs.messages.Fault.{Reads};
ghost use Rattle.spec_wire.specs.messages.VolumeClasses.{SpellsFileFsVolumeInformation, file_fs_volume_information_fault};
ghost use Rattle.spec_wire.specs.messages.VolumeClasses.{file_fs_volume_information_spelling};
ghost use Rattle.wire_info.specs.classes.Views.{file_fs_volume_information};

use crate::classes::named::FileFsVolumeInformation;
use std::alloc::{AllocError, Global};
use wire_bytes::{
    Bytes, FixedOut, MessageError, Out, Part, fields_fit, part_of, u8_at, u32_at, u64_at,
};

/// Reads the FileFsVolumeInformation that `m` begins with.
pub fn read_file_fs_volume_information(
    m: &[u8],
) -> Result<FileFsVolumeInformation<'_>, MessageError>
    ensures { Reads (file_fs_volume_information_fault m.now) (SpellsFileFsVolumeInformation m.now) file_fs_volume_information result }
{
    fields_fit(m, &[8, 4, 4, 1, 1])?;
    let volume_creation_time = u64_at(m, 0);
    let volume_serial_number = u32_at(m, 8);
    let label_len = u32_at(m, 12);
    let supports_objects = u8_at(m, 16);
    let label = part_of(m, 18, label_len as usize, 18, Part::Name)?;
    Ok(FileFsVolumeInformation {
        volume_creation_time,
        volume_serial_number,
        supports_objects,
        label,
    })
}

/// The canonical spelling of the FileFsVolumeInformation. The length of the label must fit its
/// field of 4 bytes.
pub fn write_file_fs_volume_information(
    alloc: Global,
    v: &FileFsVolumeInformation<'_>,
) -> Result<Bytes, AllocError>
    requires { length v.now.label.now < 2 ^ 32 }
    ensures { IfOk result (λ b. b ≡ file_fs_volume_information_spelling (file_fs_volume_information v.now)) }
{
    let mut fixed = FixedOut::<18>::new();
    fixed.put_u64(v.volume_creation_time);
    fixed.put_u32(v.volume_serial_number);
    fixed.put_u32(v.label.len() as u32);
    fixed.put_u8(v.supports_objects);
    fixed.put_u8(0);
    let mut out = Out::new(alloc);
    out.put_slice(&fixed.finish())?;
    out.put_slice(v.label)?;
    Ok(out.finish())
}
