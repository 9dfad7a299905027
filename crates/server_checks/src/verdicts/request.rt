//! What a request alone says.
ghost use Rattle.std.specs.Prelude.{◌≡◌};
ghost use Rattle.wire_commands.specs.values.Meaning.{command_of};
ghost use Rattle.spec_exchange.specs.CheckOpen.{ioctl_status, is_slot};
ghost use Rattle.spec_exchange.specs.Commands.{is_setup};
ghost use Rattle.spec_exchange.specs.Listing.{file_info_size, volume_info_size};
ghost use Rattle.server_checks.specs.verdicts.Looks.{file_in};

use crate::verdicts::status::{
    FS_DRIVER_REQUIRED, INFO_LENGTH_MISMATCH, INVALID_DEVICE_REQUEST, INVALID_PARAMETER, SUCCESS,
};
use store_files::units;
use wire_commands::Command;

// The control codes of IOCTL that are known (MS-SMB2 2.2.31): FSCTL_QUERY_NETWORK_INTERFACE_INFO and FSCTL_DFS_GET_REFERRALS,
// and FSCTL_CREATE_OR_GET_OBJECT_ID (MS-FSCC 2.3).
const QUERY_INTERFACES: u32 = 0x14_01fc;

const GET_REFERRALS: u32 = 0x6_0194;

/// It asks for the object id of an open's file.
pub const GET_OBJECT_ID: u32 = 0x9_00c0;

/// SESSION_SETUP, which comes before a session is there.
pub fn is_setup(command: &Command<'_>) -> bool
    ensures { result ≡ is_setup (command_of command.now) }
{
    match command {
        Command::Setup(_) => true,
        _ => false,
    }
}

/// The open that a command names.
pub fn file_named(command: &Command<'_>) -> Option<u64>
    ensures { result ≡ file_in (command_of command.now) }
{
    match command {
        Command::Close { file, .. } => Some(*file),
        Command::Flush { file } => Some(*file),
        Command::Read { file, .. } => Some(*file),
        Command::Write { file, .. } => Some(*file),
        Command::Lock { file, .. } => Some(*file),
        Command::Ioctl { file, .. } => Some(*file),
        Command::ListDirectory { file, .. } => Some(*file),
        Command::QueryFile { file, .. } => Some(*file),
        Command::QueryVolume { file, .. } => Some(*file),
        Command::SetInfo { file, .. } => Some(*file),
        _ => None,
    }
}

/// The index of a LOCK names a lock slot (MS-SMB2 3.3.5.14).
pub fn is_slot(index: u32) -> bool
    ensures { result ≡ is_slot index }
{
    index >= 1 && index <= 64
}

/// The status of an IOCTL (MS-SMB2 3.3.5.15); SUCCESS where it tells the interfaces or an object id.
pub fn ioctl_status(code: u32, room: u32) -> u32
    ensures { result ≡ ioctl_status code room }
{
    if code == QUERY_INTERFACES {
        if room < 152 {
            INFO_LENGTH_MISMATCH
        } else {
            SUCCESS
        }
    } else if code == GET_OBJECT_ID {
        if room < 64 {
            INVALID_PARAMETER
        } else {
            SUCCESS
        }
    } else if code == GET_REFERRALS {
        FS_DRIVER_REQUIRED
    } else {
        INVALID_DEVICE_REQUEST
    }
}

/// How many bytes the class of a file's information takes (MS-FSCC 2.4).
#[tactic(auto, unfolding(spec_exchange::specs::Listing::file_info_size, spec_exchange::specs::Listing::is_short_class, spec_exchange::specs::Listing::streams_size))]
pub fn file_info_size(class: u8, directory: bool, path: &str) -> u128
    ensures { result ≡ file_info_size class directory path.now }
{
    match class {
        4 => 40,
        5 => 24,
        6 => 8,
        34 => 56,
        7 | 8 | 16 | 17 => 4,
        14 => 8,
        22 => { if directory { 0 } else { 38 } }
        9 => 4 + 2 * (u128::from(units(path.as_bytes())) + 1),
        _ => 100 + 2 * (u128::from(units(path.as_bytes())) + 1),
    }
}

/// How many bytes the class of a volume's information takes (MS-FSCC 2.5).
#[tactic(auto, unfolding(spec_exchange::specs::Listing::volume_info_size))]
pub fn volume_info_size(class: u8) -> u32
    ensures { result ≡ volume_info_size class }
{
    match class {
        1 => 18,
        3 => 24,
        4 => 8,
        5 => 20,
        11 => 28,
        _ => 32,
    }
}
