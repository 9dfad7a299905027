ghost use Rattle.std.specs.Prelude.{◌≡◌, IfOk};
ghost use Rattle.spec_wire.specs.messages.Fault.{Reads};
ghost use Rattle.spec_wire.specs.messages.VolumeClasses.{SpellsFileFsDeviceInformation, file_fs_device_information_fault};
ghost use Rattle.spec_wire.specs.messages.VolumeClasses.{file_fs_device_information_spelling};

use spec_wire::FileFsDeviceInformation;
use std::alloc::{AllocError, Global};
use wire_bytes::{Bytes, MessageError, Out, fields_fit, u32_at};

/// Reads the FileFsDeviceInformation that `m` begins with.
pub fn read_file_fs_device_information(m: &[u8]) -> Result<FileFsDeviceInformation, MessageError>
    ensures { Reads (file_fs_device_information_fault m.now) (SpellsFileFsDeviceInformation m.now) (λ v. v) result }
{
    fields_fit(m, &[4, 4])?;
    let device_type = u32_at(m, 0);
    let characteristics = u32_at(m, 4);
    Ok(FileFsDeviceInformation {
        device_type,
        characteristics,
    })
}

/// The canonical spelling of the FileFsDeviceInformation.
pub fn write_file_fs_device_information(
    alloc: Global,
    v: &FileFsDeviceInformation,
) -> Result<Bytes, AllocError>
    ensures { IfOk result (λ b. b ≡ file_fs_device_information_spelling v.now) }
{
    let mut out = Out::new(alloc);
    out.put_u32(v.device_type)?;
    out.put_u32(v.characteristics)?;
    Ok(out.finish())
}
