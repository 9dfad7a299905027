//! The classes of a listing (MS-SMB2 2.2.33).
ghost use Rattle.std.specs.Prelude.{◌≡◌};
ghost use Rattle.spec_commands.specs.Tables;

use spec_wire::DirectoryClass;

/// The class of a listing by its number; `None` where it is no class of a listing.
#[tactic(auto, unfolding(spec_commands::specs::Tables::directory_class))]
pub fn directory_class(number: u8) -> Option<DirectoryClass>
    ensures { result ≡ Tables.directory_class number }
{
    match number {
        1 => Some(DirectoryClass::Directory),
        2 => Some(DirectoryClass::FullDirectory),
        3 => Some(DirectoryClass::BothDirectory),
        12 => Some(DirectoryClass::Names),
        37 => Some(DirectoryClass::IdBothDirectory),
        38 => Some(DirectoryClass::IdFullDirectory),
        _ => None,
    }
}
