//! SET_INFO, with the classes of MS-FSCC 2.4.
ghost use Rattle.std.specs.Prelude.{◌≡◌, None, true, IfOk, OnErr};
ghost use Rattle.spec_commands.specs.CommandOf;
ghost use Rattle.spec_commands.specs.Text.{text_in};
ghost use Rattle.spec_wire.specs.messages.SetInfo.{set_info_request_in, set_info_request_fault};
ghost use Rattle.spec_wire.specs.messages.FileClasses.{file_rename_information_fault};
ghost use Rattle.wire_commands.specs.reading.Lacking.{sets_name};
ghost use Rattle.wire_commands.specs.values.Meaning;
ghost use Rattle.wire_info.specs.classes.Views.{file_rename_information};
ghost use Rattle.wire_info.specs.info_messages.Views.{set_info_request};

use crate::reading::ids::file_of;
use crate::reading::status::{INVALID_PARAMETER, NOT_SUPPORTED, OBJECT_NAME_INVALID, unreadable};
use crate::reading::texts::text_in;
use crate::values::{Command, Setting};
use spec_exchange::values::Basic;
use std::alloc::{AllocError, Global};
use wire_info::{
    FileRenameInformation, SetInfoRequest, read_file_allocation_information,
    read_file_basic_information, read_file_disposition_information,
    read_file_end_of_file_information, read_file_mode_information, read_file_position_information,
    read_file_rename_information, read_set_info_request,
};

#[tactic(auto, using(crate::proofs::reading::Unless::reads_or_breaks))]
fn set_basic<'a>(file: u64, bytes: &[u8]) -> Command<'a>
    ensures { Meaning.command_of result ≡ CommandOf.setting_of file 4 bytes.now }
{
    match read_file_basic_information(bytes) {
        Ok(v) => Command::SetInfo {
            file,
            setting: Setting::SetBasic {
                basic: Basic {
                    created: v.creation_time,
                    accessed: v.last_access_time,
                    written: v.last_write_time,
                    changed: v.change_time,
                    attributes: v.file_attributes,
                },
            },
        },
        Err(error) => unreadable(error),
    }
}

// RootDirectory names no directory.
fn rename_of<'a>(
    alloc: Global,
    file: u64,
    v: &FileRenameInformation<'_>,
) -> Result<Command<'a>, AllocError>
    ensures { IfOk result (λ c. Meaning.command_of c ≡ CommandOf.rename_of file (file_rename_information v.now) (text_in v.now.name.now)) }
{
    match text_in(alloc, v.name) {
        Ok(Some(path)) => {
            if v.root_directory != 0 {
                return Ok(Command::Unreadable {
                    status: INVALID_PARAMETER,
                });
            }
            Ok(Command::SetInfo {
                file,
                setting: Setting::Rename {
                    replace: v.replace_if_exists != 0,
                    path,
                },
            })
        }
        Ok(None) => Ok(Command::Unreadable {
            status: OBJECT_NAME_INVALID,
        }),
        Err(error) => Err(error),
    }
}

#[tactic(auto, using(crate::proofs::reading::Unless::reads_or_breaks))]
fn rename<'a>(alloc: Global, file: u64, bytes: &[u8]) -> Result<Command<'a>, AllocError>
    ensures lacks { OnErr result (file_rename_information_fault bytes.now ≡ None) }
    ensures reads { IfOk result (λ c. Meaning.command_of c ≡ CommandOf.setting_of file 10 bytes.now) }
{
    match read_file_rename_information(bytes) {
        Ok(v) => rename_of(alloc, file, &v),
        Err(error) => Ok(unreadable(error)),
    }
}

#[tactic(auto, using(crate::proofs::reading::Unless::reads_or_breaks))]
fn set_delete<'a>(file: u64, bytes: &[u8]) -> Command<'a>
    ensures { Meaning.command_of result ≡ CommandOf.setting_of file 13 bytes.now }
{
    match read_file_disposition_information(bytes) {
        Ok(v) => Command::SetInfo {
            file,
            setting: Setting::SetDelete {
                marked: v.delete_pending != 0,
            },
        },
        Err(error) => unreadable(error),
    }
}

#[tactic(auto, using(crate::proofs::reading::Unless::reads_or_breaks))]
fn set_allocation<'a>(file: u64, bytes: &[u8]) -> Command<'a>
    ensures { Meaning.command_of result ≡ CommandOf.setting_of file 19 bytes.now }
{
    match read_file_allocation_information(bytes) {
        Ok(v) => Command::SetInfo {
            file,
            setting: Setting::SetAllocation {
                size: v.allocation_size,
            },
        },
        Err(error) => unreadable(error),
    }
}

#[tactic(auto, using(crate::proofs::reading::Unless::reads_or_breaks))]
fn set_end<'a>(file: u64, bytes: &[u8]) -> Command<'a>
    ensures { Meaning.command_of result ≡ CommandOf.setting_of file 20 bytes.now }
{
    match read_file_end_of_file_information(bytes) {
        Ok(v) => Command::SetInfo {
            file,
            setting: Setting::SetEnd {
                size: v.end_of_file,
            },
        },
        Err(error) => unreadable(error),
    }
}

#[tactic(auto, using(crate::proofs::reading::Unless::reads_or_breaks))]
fn set_position<'a>(file: u64, bytes: &[u8]) -> Command<'a>
    ensures { Meaning.command_of result ≡ CommandOf.setting_of file 14 bytes.now }
{
    match read_file_position_information(bytes) {
        Ok(v) => Command::SetInfo {
            file,
            setting: Setting::SetPosition {
                position: v.current_byte_offset,
            },
        },
        Err(error) => unreadable(error),
    }
}

// Whichever bits it names, an open's mode stays.
#[tactic(auto, using(crate::proofs::reading::Unless::reads_or_breaks))]
fn set_mode<'a>(file: u64, bytes: &[u8]) -> Command<'a>
    ensures { Meaning.command_of result ≡ CommandOf.setting_of file 16 bytes.now }
{
    match read_file_mode_information(bytes) {
        Ok(_) => Command::SetInfo {
            file,
            setting: Setting::SetMode,
        },
        Err(error) => unreadable(error),
    }
}

fn setting_of<'a>(
    alloc: Global,
    file: u64,
    class: u8,
    bytes: &[u8],
) -> Result<Command<'a>, AllocError>
    ensures lacks { OnErr result ((class ≡ 10) × (file_rename_information_fault bytes.now ≡ None)) }
    ensures reads { IfOk result (λ c. Meaning.command_of c ≡ CommandOf.setting_of file class bytes.now) }
{
    match class {
        4 => Ok(set_basic(file, bytes)),
        10 => rename(alloc, file, bytes),
        13 => Ok(set_delete(file, bytes)),
        19 => Ok(set_allocation(file, bytes)),
        20 => Ok(set_end(file, bytes)),
        14 => Ok(set_position(file, bytes)),
        16 => Ok(set_mode(file, bytes)),
        _ => Ok(Command::Unreadable {
            status: NOT_SUPPORTED,
        }),
    }
}

// Type 1 is a file; security (3) and quotas (4) aren't supported.
fn set_of<'a>(alloc: Global, v: &SetInfoRequest<'_>) -> Result<Command<'a>, AllocError>
    ensures lacks { OnErr result (sets_name (set_info_request v.now) ≡ true) }
    ensures reads { IfOk result (λ c. Meaning.command_of c ≡ CommandOf.set_of (set_info_request v.now)) }
{
    match v.info_type {
        1 => setting_of(alloc, file_of(&v.file_id), v.file_info_class, v.payload),
        3 | 4 => Ok(Command::Unreadable {
            status: NOT_SUPPORTED,
        }),
        _ => Ok(Command::Unreadable {
            status: INVALID_PARAMETER,
        }),
    }
}

#[tactic(auto, unfolding(spec_commands::specs::CommandOf::set_in), using(crate::proofs::reading::Unless::reads_or_breaks))]
pub(crate) fn set_in(alloc: Global, m: &[u8]) -> Result<Command<'_>, AllocError>
    ensures lacks { OnErr result ((set_info_request_fault m.now ≡ None) × (sets_name (set_info_request_in m.now) ≡ true)) }
    ensures reads { IfOk result (λ c. Meaning.command_of c ≡ CommandOf.set_in m.now) }
{
    match read_set_info_request(m) {
        Ok(v) => set_of(alloc, &v),
        Err(error) => Ok(unreadable(error)),
    }
}
