/// The information classes of a listing (MS-FSCC 2.4), by which its entries are laid out.
#[derive(Clone, Copy, Debug, PartialEq, Eq)]
pub enum DirectoryClass {
    /// FileDirectoryInformation, class 1.
    Directory,
    /// FileFullDirectoryInformation, class 2.
    FullDirectory,
    /// FileBothDirectoryInformation, class 3.
    BothDirectory,
    /// FileNamesInformation, class 12.
    Names,
    /// FileIdBothDirectoryInformation, class 37.
    IdBothDirectory,
    /// FileIdFullDirectoryInformation, class 38.
    IdFullDirectory,
}
