ghost use Rattle.std.specs.Prelude.{◌≡◌, ◌++◌, ℕ, List, None};
ghost use Rattle.spec_wire.specs.messages.VolumeClasses.{FileFsVolumeInformationValue, SpellsFileFsVolumeInformation};
ghost use Rattle.spec_wire.specs.messages.VolumeClasses.{IsWritableFileFsVolumeInformation, file_fs_volume_information_fault};
ghost use Rattle.spec_wire.specs.messages.VolumeClasses.{file_fs_volume_information_in, file_fs_volume_information_spelling};
ghost use Rattle.spec_wire.specs.messages.VolumeClasses.{SpellsFileFsSizeInformation, IsWritableFileFsSizeInformation};
ghost use Rattle.spec_wire.specs.messages.VolumeClasses.{file_fs_size_information_fault, file_fs_size_information_in};
ghost use Rattle.spec_wire.specs.messages.VolumeClasses.{file_fs_size_information_spelling};
ghost use Rattle.spec_wire.specs.declared.messages.class.FileFsSizeInformation.{FileFsSizeInformation};
ghost use Rattle.spec_wire.specs.messages.VolumeClasses.{SpellsFileFsDeviceInformation, IsWritableFileFsDeviceInformation};
ghost use Rattle.spec_wire.specs.messages.VolumeClasses.{file_fs_device_information_fault, file_fs_device_information_in};
ghost use Rattle.spec_wire.specs.messages.VolumeClasses.{file_fs_device_information_spelling};
ghost use Rattle.spec_wire.specs.declared.messages.class.FileFsDeviceInformation.{FileFsDeviceInformation};
ghost use Rattle.spec_wire.specs.messages.VolumeClasses.{FileFsAttributeInformationValue, SpellsFileFsAttributeInformation};
ghost use Rattle.spec_wire.specs.messages.VolumeClasses.{IsWritableFileFsAttributeInformation};
ghost use Rattle.spec_wire.specs.messages.VolumeClasses.{file_fs_attribute_information_fault, file_fs_attribute_information_in};
ghost use Rattle.spec_wire.specs.messages.VolumeClasses.{file_fs_attribute_information_spelling};
ghost use Rattle.spec_wire.specs.messages.VolumeClasses.{SpellsFileFsFullSizeInformation, IsWritableFileFsFullSizeInformation};
ghost use Rattle.spec_wire.specs.messages.VolumeClasses.{file_fs_full_size_information_fault, file_fs_full_size_information_in};
ghost use Rattle.spec_wire.specs.messages.VolumeClasses.{file_fs_full_size_information_spelling};
ghost use Rattle.spec_wire.specs.declared.messages.class.FileFsFullSizeInformation.{FileFsFullSizeInformation};
ghost use Rattle.spec_wire.specs.messages.VolumeClasses.{SpellsFileFsSectorSizeInformation, IsWritableFileFsSectorSizeInformation};
ghost use Rattle.spec_wire.specs.messages.VolumeClasses.{file_fs_sector_size_information_fault, file_fs_sector_size_information_in};
ghost use Rattle.spec_wire.specs.messages.VolumeClasses.{file_fs_sector_size_information_spelling};
ghost use Rattle.spec_wire.specs.declared.messages.class.FileFsSectorSizeInformation.{FileFsSectorSizeInformation};

/// The laws of FileFsVolumeInformation.
pub fn file_fs_volume_information_law()
    ensures one { (m : List ℕ) (v w : FileFsVolumeInformationValue) → SpellsFileFsVolumeInformation m v
        → SpellsFileFsVolumeInformation m w → v ≡ w }
    ensures whole { (m : List ℕ) (v : FileFsVolumeInformationValue) → SpellsFileFsVolumeInformation m v
        → file_fs_volume_information_fault m ≡ None }
    ensures given { (m : List ℕ) → file_fs_volume_information_fault m ≡ None
        → SpellsFileFsVolumeInformation m (file_fs_volume_information_in m) }
    ensures again { (rest : List ℕ) (v : FileFsVolumeInformationValue) → IsWritableFileFsVolumeInformation v
        → SpellsFileFsVolumeInformation (file_fs_volume_information_spelling v ++ rest) v }
{}

/// The laws of FileFsSizeInformation.
pub fn file_fs_size_information_law()
    ensures one { (m : List ℕ) (v w : FileFsSizeInformation) → SpellsFileFsSizeInformation m v → SpellsFileFsSizeInformation m w → v ≡ w }
    ensures whole { (m : List ℕ) (v : FileFsSizeInformation) → SpellsFileFsSizeInformation m v → file_fs_size_information_fault m ≡ None }
    ensures given { (m : List ℕ) → file_fs_size_information_fault m ≡ None → SpellsFileFsSizeInformation m (file_fs_size_information_in m) }
    ensures again { (rest : List ℕ) (v : FileFsSizeInformation) → IsWritableFileFsSizeInformation v
        → SpellsFileFsSizeInformation (file_fs_size_information_spelling v ++ rest) v }
{}

/// The laws of FileFsDeviceInformation.
pub fn file_fs_device_information_law()
    ensures one { (m : List ℕ) (v w : FileFsDeviceInformation) → SpellsFileFsDeviceInformation m v
        → SpellsFileFsDeviceInformation m w → v ≡ w }
    ensures whole { (m : List ℕ) (v : FileFsDeviceInformation) → SpellsFileFsDeviceInformation m v
        → file_fs_device_information_fault m ≡ None }
    ensures given { (m : List ℕ) → file_fs_device_information_fault m ≡ None
        → SpellsFileFsDeviceInformation m (file_fs_device_information_in m) }
    ensures again { (rest : List ℕ) (v : FileFsDeviceInformation) → IsWritableFileFsDeviceInformation v
        → SpellsFileFsDeviceInformation (file_fs_device_information_spelling v ++ rest) v }
{}

/// The laws of FileFsAttributeInformation.
pub fn file_fs_attribute_information_law()
    ensures one { (m : List ℕ) (v w : FileFsAttributeInformationValue) → SpellsFileFsAttributeInformation m v
        → SpellsFileFsAttributeInformation m w → v ≡ w }
    ensures whole { (m : List ℕ) (v : FileFsAttributeInformationValue) → SpellsFileFsAttributeInformation m v
        → file_fs_attribute_information_fault m ≡ None }
    ensures given { (m : List ℕ) → file_fs_attribute_information_fault m ≡ None
        → SpellsFileFsAttributeInformation m (file_fs_attribute_information_in m) }
    ensures again { (rest : List ℕ) (v : FileFsAttributeInformationValue) → IsWritableFileFsAttributeInformation v
        → SpellsFileFsAttributeInformation (file_fs_attribute_information_spelling v ++ rest) v }
{}

/// The laws of FileFsFullSizeInformation.
pub fn file_fs_full_size_information_law()
    ensures one { (m : List ℕ) (v w : FileFsFullSizeInformation) → SpellsFileFsFullSizeInformation m v
        → SpellsFileFsFullSizeInformation m w → v ≡ w }
    ensures whole { (m : List ℕ) (v : FileFsFullSizeInformation) → SpellsFileFsFullSizeInformation m v
        → file_fs_full_size_information_fault m ≡ None }
    ensures given { (m : List ℕ) → file_fs_full_size_information_fault m ≡ None
        → SpellsFileFsFullSizeInformation m (file_fs_full_size_information_in m) }
    ensures again { (rest : List ℕ) (v : FileFsFullSizeInformation) → IsWritableFileFsFullSizeInformation v
        → SpellsFileFsFullSizeInformation (file_fs_full_size_information_spelling v ++ rest) v }
{}

/// The laws of FileFsSectorSizeInformation.
pub fn file_fs_sector_size_information_law()
    ensures one { (m : List ℕ) (v w : FileFsSectorSizeInformation) → SpellsFileFsSectorSizeInformation m v
        → SpellsFileFsSectorSizeInformation m w → v ≡ w }
    ensures whole { (m : List ℕ) (v : FileFsSectorSizeInformation) → SpellsFileFsSectorSizeInformation m v
        → file_fs_sector_size_information_fault m ≡ None }
    ensures given { (m : List ℕ) → file_fs_sector_size_information_fault m ≡ None
        → SpellsFileFsSectorSizeInformation m (file_fs_sector_size_information_in m) }
    ensures again { (rest : List ℕ) (v : FileFsSectorSizeInformation) → IsWritableFileFsSectorSizeInformation v
        → SpellsFileFsSectorSizeInformation (file_fs_sector_size_information_spelling v ++ rest) v }
{}
