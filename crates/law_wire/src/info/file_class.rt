ghost use Rattle.std.specs.Prelude.{◌≡◌, ◌++◌, ℕ, List, None};
ghost use Rattle.spec_wire.specs.messages.FileClasses.{SpellsFileBasicInformation, IsWritableFileBasicInformation};
ghost use Rattle.spec_wire.specs.messages.FileClasses.{file_basic_information_fault, file_basic_information_in};
ghost use Rattle.spec_wire.specs.messages.FileClasses.{file_basic_information_spelling};
ghost use Rattle.spec_wire.specs.declared.messages.class.FileBasicInformation.{FileBasicInformation};
ghost use Rattle.spec_wire.specs.messages.FileClasses.{SpellsFileStandardInformation, IsWritableFileStandardInformation};
ghost use Rattle.spec_wire.specs.messages.FileClasses.{file_standard_information_fault, file_standard_information_in};
ghost use Rattle.spec_wire.specs.messages.FileClasses.{file_standard_information_spelling};
ghost use Rattle.spec_wire.specs.declared.messages.class.FileStandardInformation.{FileStandardInformation};
ghost use Rattle.spec_wire.specs.messages.FileClasses.{SpellsFileInternalInformation, IsWritableFileInternalInformation};
ghost use Rattle.spec_wire.specs.messages.FileClasses.{file_internal_information_fault, file_internal_information_in};
ghost use Rattle.spec_wire.specs.messages.FileClasses.{file_internal_information_spelling};
ghost use Rattle.spec_wire.specs.declared.messages.class.FileInternalInformation.{FileInternalInformation};
ghost use Rattle.spec_wire.specs.messages.FileClasses.{FileRenameInformationValue, SpellsFileRenameInformation};
ghost use Rattle.spec_wire.specs.messages.FileClasses.{IsWritableFileRenameInformation, file_rename_information_fault};
ghost use Rattle.spec_wire.specs.messages.FileClasses.{file_rename_information_in, file_rename_information_spelling};
ghost use Rattle.spec_wire.specs.messages.FileClasses.{SpellsFileDispositionInformation, IsWritableFileDispositionInformation};
ghost use Rattle.spec_wire.specs.messages.FileClasses.{file_disposition_information_fault, file_disposition_information_in};
ghost use Rattle.spec_wire.specs.messages.FileClasses.{file_disposition_information_spelling};
ghost use Rattle.spec_wire.specs.declared.messages.class.FileDispositionInformation.{FileDispositionInformation};
ghost use Rattle.spec_wire.specs.messages.FileClasses.{FileAllInformationValue, SpellsFileAllInformation};
ghost use Rattle.spec_wire.specs.messages.FileClasses.{IsWritableFileAllInformation, file_all_information_fault};
ghost use Rattle.spec_wire.specs.messages.FileClasses.{file_all_information_in, file_all_information_spelling};
ghost use Rattle.spec_wire.specs.messages.FileClasses.{SpellsFileAllocationInformation, IsWritableFileAllocationInformation};
ghost use Rattle.spec_wire.specs.messages.FileClasses.{file_allocation_information_fault, file_allocation_information_in};
ghost use Rattle.spec_wire.specs.messages.FileClasses.{file_allocation_information_spelling};
ghost use Rattle.spec_wire.specs.declared.messages.class.FileAllocationInformation.{FileAllocationInformation};
ghost use Rattle.spec_wire.specs.messages.FileClasses.{SpellsFileEndOfFileInformation, IsWritableFileEndOfFileInformation};
ghost use Rattle.spec_wire.specs.messages.FileClasses.{file_end_of_file_information_fault, file_end_of_file_information_in};
ghost use Rattle.spec_wire.specs.messages.FileClasses.{file_end_of_file_information_spelling};
ghost use Rattle.spec_wire.specs.declared.messages.class.FileEndOfFileInformation.{FileEndOfFileInformation};
ghost use Rattle.spec_wire.specs.messages.FileClasses.{SpellsFileNetworkOpenInformation, IsWritableFileNetworkOpenInformation};
ghost use Rattle.spec_wire.specs.messages.FileClasses.{file_network_open_information_fault, file_network_open_information_in};
ghost use Rattle.spec_wire.specs.messages.FileClasses.{file_network_open_information_spelling};
ghost use Rattle.spec_wire.specs.declared.messages.class.FileNetworkOpenInformation.{FileNetworkOpenInformation};
ghost use Rattle.spec_wire.specs.messages.FileClasses.{SpellsFileEaInformation, IsWritableFileEaInformation};
ghost use Rattle.spec_wire.specs.messages.FileClasses.{file_ea_information_fault, file_ea_information_in};
ghost use Rattle.spec_wire.specs.messages.FileClasses.{file_ea_information_spelling};
ghost use Rattle.spec_wire.specs.declared.messages.class.FileEaInformation.{FileEaInformation};
ghost use Rattle.spec_wire.specs.messages.FileClasses.{SpellsFileAccessInformation, IsWritableFileAccessInformation};
ghost use Rattle.spec_wire.specs.messages.FileClasses.{file_access_information_fault, file_access_information_in};
ghost use Rattle.spec_wire.specs.messages.FileClasses.{file_access_information_spelling};
ghost use Rattle.spec_wire.specs.declared.messages.class.FileAccessInformation.{FileAccessInformation};
ghost use Rattle.spec_wire.specs.messages.FileClasses.{SpellsFilePositionInformation, IsWritableFilePositionInformation};
ghost use Rattle.spec_wire.specs.messages.FileClasses.{file_position_information_fault, file_position_information_in};
ghost use Rattle.spec_wire.specs.messages.FileClasses.{file_position_information_spelling};
ghost use Rattle.spec_wire.specs.declared.messages.class.FilePositionInformation.{FilePositionInformation};
ghost use Rattle.spec_wire.specs.messages.FileClasses.{SpellsFileModeInformation, IsWritableFileModeInformation};
ghost use Rattle.spec_wire.specs.messages.FileClasses.{file_mode_information_fault, file_mode_information_in};
ghost use Rattle.spec_wire.specs.messages.FileClasses.{file_mode_information_spelling};
ghost use Rattle.spec_wire.specs.declared.messages.class.FileModeInformation.{FileModeInformation};
ghost use Rattle.spec_wire.specs.messages.FileClasses.{SpellsFileAlignmentInformation, IsWritableFileAlignmentInformation};
ghost use Rattle.spec_wire.specs.messages.FileClasses.{file_alignment_information_fault, file_alignment_information_in};
ghost use Rattle.spec_wire.specs.messages.FileClasses.{file_alignment_information_spelling};
ghost use Rattle.spec_wire.specs.declared.messages.class.FileAlignmentInformation.{FileAlignmentInformation};
ghost use Rattle.spec_wire.specs.messages.FileClasses.{FileNameInformationValue, SpellsFileNameInformation, IsWritableFileNameInformation};
ghost use Rattle.spec_wire.specs.messages.FileClasses.{file_name_information_fault, file_name_information_in};
ghost use Rattle.spec_wire.specs.messages.FileClasses.{file_name_information_spelling};
ghost use Rattle.spec_wire.specs.messages.FileClasses.{FileStreamInformationValue, SpellsFileStreamInformation, IsWritableFileStreamInformation};
ghost use Rattle.spec_wire.specs.messages.FileClasses.{file_stream_information_fault, file_stream_information_in};
ghost use Rattle.spec_wire.specs.messages.FileClasses.{file_stream_information_spelling};

/// The laws of FileBasicInformation.
pub fn file_basic_information_law()
    ensures one { (m : List ℕ) (v w : FileBasicInformation) → SpellsFileBasicInformation m v → SpellsFileBasicInformation m w → v ≡ w }
    ensures whole { (m : List ℕ) (v : FileBasicInformation) → SpellsFileBasicInformation m v → file_basic_information_fault m ≡ None }
    ensures given { (m : List ℕ) → file_basic_information_fault m ≡ None → SpellsFileBasicInformation m (file_basic_information_in m) }
    ensures again { (rest : List ℕ) (v : FileBasicInformation) → IsWritableFileBasicInformation v
        → SpellsFileBasicInformation (file_basic_information_spelling v ++ rest) v }
{}

/// The laws of FileStandardInformation.
pub fn file_standard_information_law()
    ensures one { (m : List ℕ) (v w : FileStandardInformation) → SpellsFileStandardInformation m v
        → SpellsFileStandardInformation m w → v ≡ w }
    ensures whole { (m : List ℕ) (v : FileStandardInformation) → SpellsFileStandardInformation m v
        → file_standard_information_fault m ≡ None }
    ensures given { (m : List ℕ) → file_standard_information_fault m ≡ None
        → SpellsFileStandardInformation m (file_standard_information_in m) }
    ensures again { (rest : List ℕ) (v : FileStandardInformation) → IsWritableFileStandardInformation v
        → SpellsFileStandardInformation (file_standard_information_spelling v ++ rest) v }
{}

/// The laws of FileInternalInformation.
pub fn file_internal_information_law()
    ensures one { (m : List ℕ) (v w : FileInternalInformation) → SpellsFileInternalInformation m v
        → SpellsFileInternalInformation m w → v ≡ w }
    ensures whole { (m : List ℕ) (v : FileInternalInformation) → SpellsFileInternalInformation m v
        → file_internal_information_fault m ≡ None }
    ensures given { (m : List ℕ) → file_internal_information_fault m ≡ None
        → SpellsFileInternalInformation m (file_internal_information_in m) }
    ensures again { (rest : List ℕ) (v : FileInternalInformation) → IsWritableFileInternalInformation v
        → SpellsFileInternalInformation (file_internal_information_spelling v ++ rest) v }
{}

/// The laws of FileRenameInformation.
pub fn file_rename_information_law()
    ensures one { (m : List ℕ) (v w : FileRenameInformationValue) → SpellsFileRenameInformation m v
        → SpellsFileRenameInformation m w → v ≡ w }
    ensures whole { (m : List ℕ) (v : FileRenameInformationValue) → SpellsFileRenameInformation m v
        → file_rename_information_fault m ≡ None }
    ensures given { (m : List ℕ) → file_rename_information_fault m ≡ None → SpellsFileRenameInformation m (file_rename_information_in m) }
    ensures again { (rest : List ℕ) (v : FileRenameInformationValue) → IsWritableFileRenameInformation v
        → SpellsFileRenameInformation (file_rename_information_spelling v ++ rest) v }
{}

/// The laws of FileDispositionInformation.
pub fn file_disposition_information_law()
    ensures one { (m : List ℕ) (v w : FileDispositionInformation) → SpellsFileDispositionInformation m v
        → SpellsFileDispositionInformation m w → v ≡ w }
    ensures whole { (m : List ℕ) (v : FileDispositionInformation) → SpellsFileDispositionInformation m v
        → file_disposition_information_fault m ≡ None }
    ensures given { (m : List ℕ) → file_disposition_information_fault m ≡ None
        → SpellsFileDispositionInformation m (file_disposition_information_in m) }
    ensures again { (rest : List ℕ) (v : FileDispositionInformation) → IsWritableFileDispositionInformation v
        → SpellsFileDispositionInformation (file_disposition_information_spelling v ++ rest) v }
{}

/// The laws of FileAllInformation.
pub fn file_all_information_law()
    ensures one { (m : List ℕ) (v w : FileAllInformationValue) → SpellsFileAllInformation m v → SpellsFileAllInformation m w → v ≡ w }
    ensures whole { (m : List ℕ) (v : FileAllInformationValue) → SpellsFileAllInformation m v → file_all_information_fault m ≡ None }
    ensures given { (m : List ℕ) → file_all_information_fault m ≡ None → SpellsFileAllInformation m (file_all_information_in m) }
    ensures again { (rest : List ℕ) (v : FileAllInformationValue) → IsWritableFileAllInformation v
        → SpellsFileAllInformation (file_all_information_spelling v ++ rest) v }
{}

/// The laws of FileAllocationInformation.
pub fn file_allocation_information_law()
    ensures one { (m : List ℕ) (v w : FileAllocationInformation) → SpellsFileAllocationInformation m v
        → SpellsFileAllocationInformation m w → v ≡ w }
    ensures whole { (m : List ℕ) (v : FileAllocationInformation) → SpellsFileAllocationInformation m v
        → file_allocation_information_fault m ≡ None }
    ensures given { (m : List ℕ) → file_allocation_information_fault m ≡ None
        → SpellsFileAllocationInformation m (file_allocation_information_in m) }
    ensures again { (rest : List ℕ) (v : FileAllocationInformation) → IsWritableFileAllocationInformation v
        → SpellsFileAllocationInformation (file_allocation_information_spelling v ++ rest) v }
{}

/// The laws of FileEndOfFileInformation.
pub fn file_end_of_file_information_law()
    ensures one { (m : List ℕ) (v w : FileEndOfFileInformation) → SpellsFileEndOfFileInformation m v
        → SpellsFileEndOfFileInformation m w → v ≡ w }
    ensures whole { (m : List ℕ) (v : FileEndOfFileInformation) → SpellsFileEndOfFileInformation m v
        → file_end_of_file_information_fault m ≡ None }
    ensures given { (m : List ℕ) → file_end_of_file_information_fault m ≡ None
        → SpellsFileEndOfFileInformation m (file_end_of_file_information_in m) }
    ensures again { (rest : List ℕ) (v : FileEndOfFileInformation) → IsWritableFileEndOfFileInformation v
        → SpellsFileEndOfFileInformation (file_end_of_file_information_spelling v ++ rest) v }
{}

/// The laws of FileNetworkOpenInformation.
pub fn file_network_open_information_law()
    ensures one { (m : List ℕ) (v w : FileNetworkOpenInformation) → SpellsFileNetworkOpenInformation m v
        → SpellsFileNetworkOpenInformation m w → v ≡ w }
    ensures whole { (m : List ℕ) (v : FileNetworkOpenInformation) → SpellsFileNetworkOpenInformation m v
        → file_network_open_information_fault m ≡ None }
    ensures given { (m : List ℕ) → file_network_open_information_fault m ≡ None
        → SpellsFileNetworkOpenInformation m (file_network_open_information_in m) }
    ensures again { (rest : List ℕ) (v : FileNetworkOpenInformation) → IsWritableFileNetworkOpenInformation v
        → SpellsFileNetworkOpenInformation (file_network_open_information_spelling v ++ rest) v }
{}

/// The laws of FileEaInformation.
pub fn file_ea_information_law()
    ensures one { (m : List ℕ) (v w : FileEaInformation) → SpellsFileEaInformation m v
        → SpellsFileEaInformation m w → v ≡ w }
    ensures whole { (m : List ℕ) (v : FileEaInformation) → SpellsFileEaInformation m v
        → file_ea_information_fault m ≡ None }
    ensures given { (m : List ℕ) → file_ea_information_fault m ≡ None
        → SpellsFileEaInformation m (file_ea_information_in m) }
    ensures again { (rest : List ℕ) (v : FileEaInformation) → IsWritableFileEaInformation v
        → SpellsFileEaInformation (file_ea_information_spelling v ++ rest) v }
{}

/// The laws of FileAccessInformation.
pub fn file_access_information_law()
    ensures one { (m : List ℕ) (v w : FileAccessInformation) → SpellsFileAccessInformation m v
        → SpellsFileAccessInformation m w → v ≡ w }
    ensures whole { (m : List ℕ) (v : FileAccessInformation) → SpellsFileAccessInformation m v
        → file_access_information_fault m ≡ None }
    ensures given { (m : List ℕ) → file_access_information_fault m ≡ None
        → SpellsFileAccessInformation m (file_access_information_in m) }
    ensures again { (rest : List ℕ) (v : FileAccessInformation) → IsWritableFileAccessInformation v
        → SpellsFileAccessInformation (file_access_information_spelling v ++ rest) v }
{}

/// The laws of FilePositionInformation.
pub fn file_position_information_law()
    ensures one { (m : List ℕ) (v w : FilePositionInformation) → SpellsFilePositionInformation m v
        → SpellsFilePositionInformation m w → v ≡ w }
    ensures whole { (m : List ℕ) (v : FilePositionInformation) → SpellsFilePositionInformation m v
        → file_position_information_fault m ≡ None }
    ensures given { (m : List ℕ) → file_position_information_fault m ≡ None
        → SpellsFilePositionInformation m (file_position_information_in m) }
    ensures again { (rest : List ℕ) (v : FilePositionInformation) → IsWritableFilePositionInformation v
        → SpellsFilePositionInformation (file_position_information_spelling v ++ rest) v }
{}

/// The laws of FileModeInformation.
pub fn file_mode_information_law()
    ensures one { (m : List ℕ) (v w : FileModeInformation) → SpellsFileModeInformation m v
        → SpellsFileModeInformation m w → v ≡ w }
    ensures whole { (m : List ℕ) (v : FileModeInformation) → SpellsFileModeInformation m v
        → file_mode_information_fault m ≡ None }
    ensures given { (m : List ℕ) → file_mode_information_fault m ≡ None
        → SpellsFileModeInformation m (file_mode_information_in m) }
    ensures again { (rest : List ℕ) (v : FileModeInformation) → IsWritableFileModeInformation v
        → SpellsFileModeInformation (file_mode_information_spelling v ++ rest) v }
{}

/// The laws of FileAlignmentInformation.
pub fn file_alignment_information_law()
    ensures one { (m : List ℕ) (v w : FileAlignmentInformation) → SpellsFileAlignmentInformation m v
        → SpellsFileAlignmentInformation m w → v ≡ w }
    ensures whole { (m : List ℕ) (v : FileAlignmentInformation) → SpellsFileAlignmentInformation m v
        → file_alignment_information_fault m ≡ None }
    ensures given { (m : List ℕ) → file_alignment_information_fault m ≡ None
        → SpellsFileAlignmentInformation m (file_alignment_information_in m) }
    ensures again { (rest : List ℕ) (v : FileAlignmentInformation) → IsWritableFileAlignmentInformation v
        → SpellsFileAlignmentInformation (file_alignment_information_spelling v ++ rest) v }
{}

/// The laws of FileNameInformation.
pub fn file_name_information_law()
    ensures one { (m : List ℕ) (v w : FileNameInformationValue) → SpellsFileNameInformation m v
        → SpellsFileNameInformation m w → v ≡ w }
    ensures whole { (m : List ℕ) (v : FileNameInformationValue) → SpellsFileNameInformation m v
        → file_name_information_fault m ≡ None }
    ensures given { (m : List ℕ) → file_name_information_fault m ≡ None
        → SpellsFileNameInformation m (file_name_information_in m) }
    ensures again { (rest : List ℕ) (v : FileNameInformationValue) → IsWritableFileNameInformation v
        → SpellsFileNameInformation (file_name_information_spelling v ++ rest) v }
{}

/// The laws of FileStreamInformation.
pub fn file_stream_information_law()
    ensures one { (m : List ℕ) (v w : FileStreamInformationValue) → SpellsFileStreamInformation m v
        → SpellsFileStreamInformation m w → v ≡ w }
    ensures whole { (m : List ℕ) (v : FileStreamInformationValue) → SpellsFileStreamInformation m v
        → file_stream_information_fault m ≡ None }
    ensures given { (m : List ℕ) → file_stream_information_fault m ≡ None
        → SpellsFileStreamInformation m (file_stream_information_in m) }
    ensures again { (rest : List ℕ) (v : FileStreamInformationValue) → IsWritableFileStreamInformation v
        → SpellsFileStreamInformation (file_stream_information_spelling v ++ rest) v }
{}
