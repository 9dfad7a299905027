ghost use Rattle.std.specs.Prelude.{◌≡◌, IfOk, ◌<◌, ◌^◌, length};
ghost use Rattle.spec_wire.specs.messages.Fault.{Reads};
ghost use Rattle.spec_wire.specs.messages.VolumeClasses.{SpellsFileFsAttributeInformation, file_fs_attribute_information_fault};
ghost use Rattle.spec_wire.specs.messages.VolumeClasses.{file_fs_attribute_information_spelling};
ghost use Rattle.wire_info.specs.classes.Views.{file_fs_attribute_information};

use crate::classes::named::FileFsAttributeInformation;
use std::alloc::{AllocError, Global};
use wire_bytes::{Bytes, FixedOut, MessageError, Out, Part, fields_fit, part_of, u32_at};

/// Reads the FileFsAttributeInformation that `m` begins with.
pub fn read_file_fs_attribute_information(
    m: &[u8],
) -> Result<FileFsAttributeInformation<'_>, MessageError>
    ensures { Reads (file_fs_attribute_information_fault m.now) (SpellsFileFsAttributeInformation m.now)
        file_fs_attribute_information result }
{
    fields_fit(m, &[4, 4, 4])?;
    let file_system_attributes = u32_at(m, 0);
    let maximum_component_name_length = u32_at(m, 4);
    let name_len = u32_at(m, 8);
    let name = part_of(m, 12, name_len as usize, 12, Part::Name)?;
    Ok(FileFsAttributeInformation {
        file_system_attributes,
        maximum_component_name_length,
        name,
    })
}

/// The canonical spelling of the FileFsAttributeInformation. The length of the name must fit
/// its field of 4 bytes.
pub fn write_file_fs_attribute_information(
    alloc: Global,
    v: &FileFsAttributeInformation<'_>,
) -> Result<Bytes, AllocError>
    requires { length v.now.name.now < 2 ^ 32 }
    ensures { IfOk result (λ b. b ≡ file_fs_attribute_information_spelling (file_fs_attribute_information v.now)) }
{
    let mut fixed = FixedOut::<12>::new();
    fixed.put_u32(v.file_system_attributes);
    fixed.put_u32(v.maximum_component_name_length);
    fixed.put_u32(v.name.len() as u32);
    let mut out = Out::new(alloc);
    out.put_slice(&fixed.finish())?;
    out.put_slice(v.name)?;
    Ok(out.finish())
}
