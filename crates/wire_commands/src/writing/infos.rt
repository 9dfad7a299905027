//! What a success tells of a file, as the bytes of an information class (MS-FSCC 2.4).
ghost use Rattle.std.specs.Prelude.{◌≡◌, ◌/◌, ◌%◌, ◌<◌, ◌^◌, ◌∷◌, [], ℕ, List, length, IfOk, MatchResult};
ghost use Rattle.spec_wire.specs.messages.Places.{le};
ghost use Rattle.spec_wire.specs.messages.Utf16.{utf16};
ghost use Rattle.spec_wire.specs.messages.FileClasses.{file_basic_information_spelling, file_standard_information_spelling};
ghost use Rattle.spec_wire.specs.messages.FileClasses.{file_internal_information_spelling, file_all_information_spelling};
ghost use Rattle.spec_wire.specs.messages.FileClasses.{file_network_open_information_spelling};
ghost use Rattle.spec_wire.specs.messages.FileClasses.{file_position_information_spelling, file_name_information_spelling};
ghost use Rattle.spec_commands.specs.Infos;
ghost use Rattle.spec_commands.specs.Tables.{bit_if};
ghost use Rattle.wire_commands.specs.values.Meaning;
ghost use Rattle.wire_commands.specs.writing.Writing.{IsBodyRefused};

use crate::values::Info;
use crate::writing::fault::WriteError;
use std::alloc::{AllocError, Global};
use wire_bytes::{Bytes, Text, utf16_of};
use wire_info::{
    FileAccessInformation, FileAlignmentInformation, FileAllInformation, FileBasicInformation,
    FileEaInformation, FileInternalInformation, FileModeInformation, FileNameInformation,
    FileNetworkOpenInformation, FilePositionInformation, FileStandardInformation,
    FileStreamInformation, write_file_access_information, write_file_alignment_information,
    write_file_all_information, write_file_basic_information, write_file_ea_information,
    write_file_internal_information, write_file_mode_information, write_file_name_information,
    write_file_network_open_information, write_file_position_information,
    write_file_standard_information, write_file_stream_information,
};

// The AllocationSize of a length: whole units of 4,096 bytes, as far as 8 bytes hold it.
#[tactic(auto, using(crate::proofs::writing::Sizes::allocation_told, crate::proofs::writing::Sizes::allocation_past))]
pub(crate) fn allocation(size: u64) -> u64
    ensures { le 8 result ≡ le 8 (Infos.allocation size) }
{
    let units = size / 4096;
    if size % 4096 == 0 {
        return units * 4096;
    }
    if units == 0xf_ffff_ffff_ffff {
        return 0;
    }
    (units + 1) * 4096
}

// The attributes without NORMAL, 0x80.
#[tactic(auto, unfolding(spec_commands::specs::Infos::without_bit, spec_exchange::specs::Commands::has_bit))]
fn without_normal(attributes: u32) -> u32
    ensures { result ≡ Infos.without_bit attributes 0x80 }
{
    if attributes / 0x80 % 2 == 1 {
        return attributes - 0x80;
    }
    attributes
}

// The attributes without DIRECTORY, 0x10.
#[tactic(auto, unfolding(spec_commands::specs::Infos::without_bit, spec_exchange::specs::Commands::has_bit))]
fn without_directory(attributes: u32) -> u32
    ensures others { result ≡ Infos.without_bit attributes 0x10 }
    ensures no_directory { result / 16 % 2 ≡ 0 }
{
    if attributes / 0x10 % 2 == 1 {
        return attributes - 0x10;
    }
    attributes
}

// FileAttributes: a directory alone is told as one, and NORMAL alone where there is no other.
// By what the file is and not by what was asked, because clients make directories with NORMAL, and take a file with
// DIRECTORY for a directory.
#[tactic(auto, unfolding(spec_commands::specs::Infos::attributes_of))]
pub(crate) fn attributes_of(info: &Info) -> u32
    ensures { result ≡ Infos.attributes_of (Meaning.info_of info.now) }
{
    let plain = without_directory(without_normal(info.times.attributes));
    if info.is_directory {
        return plain + 0x10;
    }
    if plain == 0 { 0x80 } else { plain }
}

#[tactic(auto, unfolding(spec_commands::specs::Tables::bit_if))]
pub(crate) fn bit_if(wanted: bool, bit: u8) -> u8
    ensures { result ≡ bit_if wanted bit }
{
    if wanted { bit } else { 0 }
}

fn basic(alloc: Global, info: &Info) -> Result<Bytes, AllocError>
    ensures { IfOk result (λ b. b ≡ file_basic_information_spelling (Infos.basic_of (Meaning.info_of info.now))) }
{
    let value = FileBasicInformation {
        creation_time: info.times.created,
        last_access_time: info.times.accessed,
        last_write_time: info.times.written,
        change_time: info.times.changed,
        file_attributes: attributes_of(info),
    };
    write_file_basic_information(alloc, &value)
}

fn standard(alloc: Global, info: &Info) -> Result<Bytes, AllocError>
    ensures { IfOk result (λ b. b ≡ file_standard_information_spelling (Infos.standard_of (Meaning.info_of info.now))) }
{
    let value = FileStandardInformation {
        allocation_size: allocation(info.size),
        end_of_file: info.size,
        number_of_links: 1,
        delete_pending: bit_if(info.is_delete_pending, 1),
        directory: bit_if(info.is_directory, 1),
    };
    write_file_standard_information(alloc, &value)
}

fn internal(alloc: Global, info: &Info) -> Result<Bytes, AllocError>
    ensures { IfOk result (λ b. b ≡ file_internal_information_spelling (record { index_number = info.now.file })) }
{
    let value = FileInternalInformation {
        index_number: info.file,
    };
    write_file_internal_information(alloc, &value)
}

fn network_open(alloc: Global, info: &Info) -> Result<Bytes, AllocError>
    ensures { IfOk result (λ b. b ≡ file_network_open_information_spelling (Infos.network_open_of (Meaning.info_of info.now))) }
{
    let value = FileNetworkOpenInformation {
        creation_time: info.times.created,
        last_access_time: info.times.accessed,
        last_write_time: info.times.written,
        change_time: info.times.changed,
        allocation_size: allocation(info.size),
        end_of_file: info.size,
        file_attributes: attributes_of(info),
    };
    write_file_network_open_information(alloc, &value)
}

// The classes of four bytes: 7, 8, 16, and 17 for any other. No file has extended attributes, the mode is told as 0, and no
// alignment is needed.
#[tactic(auto, unfolding(spec_commands::specs::Infos::short_bytes))]
fn short_bytes(alloc: Global, class: u8, access: u32) -> Result<Bytes, AllocError>
    ensures { IfOk result (λ b. b ≡ Infos.short_bytes class access) }
{
    match class {
        7 => write_file_ea_information(alloc, &FileEaInformation { ea_size: 0 }),
        8 => write_file_access_information(
            alloc,
            &FileAccessInformation {
                access_flags: access,
            },
        ),
        16 => write_file_mode_information(alloc, &FileModeInformation { mode: 0 }),
        _ => write_file_alignment_information(
            alloc,
            &FileAlignmentInformation {
                alignment_requirement: 0,
            },
        ),
    }
}

fn position_bytes(alloc: Global, position: u64) -> Result<Bytes, AllocError>
    ensures { IfOk result (λ b. b ≡ file_position_information_spelling (record { current_byte_offset = position })) }
{
    let value = FilePositionInformation {
        current_byte_offset: position,
    };
    write_file_position_information(alloc, &value)
}

// `::$DATA` is 14 bytes in UTF-16.
#[tactic(auto, unfolding(spec_wire::specs::messages::Utf16::utf16, spec_wire::specs::messages::Places::le, spec_exchange::specs::Texts::chars))]
fn stream_name() -> [u8; 14]
    ensures { result ≡ utf16 (58 ∷ 58 ∷ 36 ∷ 68 ∷ 65 ∷ 84 ∷ 65 ∷ []) }
{
    [58, 0, 58, 0, 36, 0, 68, 0, 65, 0, 84, 0, 65, 0]
}

// A file's bytes are its one stream; a directory has none.
fn streams(alloc: Global, info: &Info) -> Result<Bytes, AllocError>
    ensures { IfOk result (λ b. b ≡ Infos.streams_of (Meaning.info_of info.now)) }
{
    if info.is_directory {
        return Ok(Bytes::new(alloc));
    }
    let name = stream_name();
    let value = FileStreamInformation {
        next_entry_offset: 0,
        stream_size: info.size,
        stream_allocation_size: allocation(info.size),
        name: &name,
    };
    write_file_stream_information(alloc, &value)
}

// The path behind a `\`, in UTF-16.
fn rooted(alloc: Global, path: &str) -> Result<Bytes, AllocError>
    ensures { IfOk result (λ b. b ≡ utf16 (92 ∷ path.now)) }
{
    let mut text = Text::from_str(alloc, "\\")?;
    text.push_str(path)?;
    utf16_of(alloc, text.as_str())
}

// All that is told of a file, with the name of 2^32 bytes at most.
fn all(
    alloc: Global,
    name: &[u8],
    info: &Info,
    access: u32,
    options: u32,
    position: u64,
) -> Result<Bytes, AllocError>
    requires { length name.now < 2 ^ 32 }
    ensures { (path : List ℕ) → name.now ≡ utf16 (92 ∷ path) → IfOk result
        (λ b. b ≡ file_all_information_spelling (Infos.all_of path (Meaning.info_of info.now) access options position)) }
{
    let value = FileAllInformation {
        creation_time: info.times.created,
        last_access_time: info.times.accessed,
        last_write_time: info.times.written,
        change_time: info.times.changed,
        file_attributes: attributes_of(info),
        allocation_size: allocation(info.size),
        end_of_file: info.size,
        number_of_links: 1,
        delete_pending: bit_if(info.is_delete_pending, 1),
        directory: bit_if(info.is_directory, 1),
        index_number: info.file,
        access_flags: access,
        current_byte_offset: position,
        mode: options & 0x103e,
        name,
    };
    write_file_all_information(alloc, &value)
}

// The name alone. `Unwritable` comes only where it is 2^32 bytes or more.
#[tactic(auto, using(crate::proofs::writing::Contexts::name_long))]
fn name_alone(alloc: Global, path: &str) -> Result<Bytes, WriteError>
    ensures { MatchResult result
        (λ b. b ≡ file_name_information_spelling (record { name = utf16 (92 ∷ path.now) }))
        (λ e. IsBodyRefused (length (file_name_information_spelling (record { name = utf16 (92 ∷ path.now) })) < 2 ^ 32) e) }
{
    let name = rooted(alloc, path)?;
    if name.len() >= 0x1_0000_0000 {
        return Err(WriteError::Unwritable);
    }
    let value = FileNameInformation {
        name: name.as_slice(),
    };
    Ok(write_file_name_information(alloc, &value)?)
}

// All of a file. `Unwritable` comes only where it is 2^32 bytes or more.
#[tactic(auto, using(crate::proofs::writing::Contexts::all_long))]
fn all_told(
    alloc: Global,
    path: &str,
    info: &Info,
    access: u32,
    options: u32,
    position: u64,
) -> Result<Bytes, WriteError>
    ensures { MatchResult result
        (λ b. b ≡ file_all_information_spelling (Infos.all_of path.now (Meaning.info_of info.now) access options position))
        (λ e. IsBodyRefused (length (file_all_information_spelling
        (Infos.all_of path.now (Meaning.info_of info.now) access options position)) < 2 ^ 32) e) }
{
    let name = rooted(alloc, path)?;
    if name.len() >= 0x1_0000_0000 {
        return Err(WriteError::Unwritable);
    }
    Ok(all(alloc, name.as_slice(), info, access, options, position)?)
}

/// What a QUERY_INFO of a file answers by its class: 4, 5, 6, 34, 7, 8, 16, 17, 14, 22, 9, and 18 for any other.
/// `Unwritable` comes only where that is 2^32 bytes or more.
#[tactic(auto, unfolding(spec_commands::specs::Infos::file_bytes, spec_exchange::specs::Listing::is_short_class))]
pub(crate) fn file_bytes(
    alloc: Global,
    class: u8,
    path: &str,
    info: &Info,
    access: u32,
    options: u32,
    position: u64,
) -> Result<Bytes, WriteError>
    ensures { MatchResult result
        (λ b. b ≡ Infos.file_bytes class path.now (Meaning.info_of info.now) access options position)
        (λ e. IsBodyRefused (length (Infos.file_bytes class path.now (Meaning.info_of info.now) access options position) < 2 ^ 32) e) }
{
    match class {
        4 => Ok(basic(alloc, info)?),
        5 => Ok(standard(alloc, info)?),
        6 => Ok(internal(alloc, info)?),
        34 => Ok(network_open(alloc, info)?),
        7 | 8 | 16 | 17 => Ok(short_bytes(alloc, class, access)?),
        14 => Ok(position_bytes(alloc, position)?),
        22 => Ok(streams(alloc, info)?),
        9 => name_alone(alloc, path),
        _ => all_told(alloc, path, info, access, options, position),
    }
}
