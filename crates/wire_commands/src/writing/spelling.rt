//! What the client writes behind a header for a command (MS-SMB2 3.2.4).
ghost use Rattle.std.specs.Prelude.{◌≡◌, ◌+◌, ◌*◌, ◌<◌, ◌≤◌, ◌^◌, ◌++◌, Bool, length, flat_map, option_map, IfOk, MatchOption};
ghost use Rattle.spec_exchange.specs.Commands as asks;
ghost use Rattle.spec_wire.specs.messages.Close.{close_request_spelling};
ghost use Rattle.spec_wire.specs.messages.Flush.{flush_request_spelling};
ghost use Rattle.spec_wire.specs.messages.Read.{read_request_spelling};
ghost use Rattle.spec_wire.specs.messages.QueryInfo.{query_info_request_spelling};
ghost use Rattle.spec_wire.specs.messages.FileClasses.{file_basic_information_spelling, file_rename_information_spelling};
ghost use Rattle.spec_wire.specs.messages.FileClasses.{file_disposition_information_spelling};
ghost use Rattle.spec_wire.specs.messages.FileClasses.{file_allocation_information_spelling};
ghost use Rattle.spec_wire.specs.messages.FileClasses.{file_end_of_file_information_spelling};
ghost use Rattle.spec_wire.specs.messages.FileClasses.{file_position_information_spelling, file_mode_information_spelling};
ghost use Rattle.spec_wire.specs.messages.Utf16.{utf16};
ghost use Rattle.spec_wire.specs.messages.TreeConnect.{tree_connect_request_spelling};
ghost use Rattle.spec_wire.specs.messages.Create.{create_request_spelling};
ghost use Rattle.spec_wire.specs.messages.CreateContexts.{create_contexts_spelling};
ghost use Rattle.spec_wire.specs.messages.Lock.{lock_request_spelling, lock_element_spelling};
ghost use Rattle.spec_wire.specs.messages.Write.{write_request_spelling};
ghost use Rattle.spec_wire.specs.messages.QueryDirectory.{query_directory_request_spelling};
ghost use Rattle.spec_wire.specs.messages.SetInfo.{set_info_request_spelling};
ghost use Rattle.spec_commands.specs.BodyOf;
ghost use Rattle.spec_commands.specs.Tables.{bit_if};
ghost use Rattle.wire_commands.specs.values.Meaning;
ghost use Rattle.spec_commands.specs.Fits.{FitsAsked, FitsSetting};
ghost use Rattle.wire_commands.specs.writing.Writing.{BodyWrites};

use crate::values::{ClientCommand, ClientCreate, ClientReconnect, Durable, Setting};
use crate::writing::fault::WriteError;
use crate::writing::ids::{file_id, guid_id};
use crate::writing::infos::bit_if;
use spec_exchange::values::{Basic, Element};
use spec_wire::{CreateContexts, Dh2c, Dh2q};
use std::alloc::{AllocError, Global};
use wire_bytes::{
    Bytes, CloseRequest, FlushRequest, LockElement, LockRequest, ReadRequest, Text,
    TreeConnectRequest, WriteRequest, push_lock_element, utf16_of, write_chain,
    write_close_request, write_create_request, write_flush_request, write_lock_request,
    write_read_request, write_tree_connect_request, write_write_request,
};
use wire_info::{
    FileAllocationInformation, FileBasicInformation, FileDispositionInformation,
    FileEndOfFileInformation, FileModeInformation, FilePositionInformation, FileRenameInformation,
    QueryDirectoryRequest, QueryInfoRequest, SetInfoRequest, write_file_allocation_information,
    write_file_basic_information, write_file_disposition_information,
    write_file_end_of_file_information, write_file_mode_information,
    write_file_position_information, write_file_rename_information, write_query_directory_request,
    write_query_info_request, write_set_info_request,
};

// The path of a share: `\\smb311\` and its name.
fn share_path(alloc: Global, share: &str) -> Result<Bytes, AllocError>
    ensures { IfOk result (λ b. b ≡ utf16 (BodyOf.host ++ share.now)) }
{
    let mut path = Text::from_str(alloc, "\\\\smb311\\")?;
    path.push_str(share)?;
    utf16_of(alloc, path.as_str())
}

fn tree_connect(alloc: Global, share: &str) -> Result<Bytes, WriteError>
    ensures { BodyWrites (length (utf16 (BodyOf.host ++ share.now)) < 2 ^ 16)
        (tree_connect_request_spelling (BodyOf.tree_connect_value share.now)) result }
{
    let path = share_path(alloc, share)?;
    if path.len() >= 0x1_0000 {
        return Err(WriteError::Unwritable);
    }
    let value = TreeConnectRequest {
        flags: 0,
        path: path.as_slice(),
    };
    Ok(write_tree_connect_request(alloc, &value)?)
}

fn dh2q_of(asked: Option<Durable>) -> Option<Dh2q>
    ensures { result ≡ option_map BodyOf.dh2q_of (option_map Meaning.durable_of asked) }
{
    match asked {
        Some(d) => Some(Dh2q {
            timeout: d.timeout,
            persistent: d.persistent,
            guid: guid_id(d.guid),
        }),
        None => None,
    }
}

// Only a persistent open is attached again.
fn dh2c_of(asked: Option<ClientReconnect>) -> Option<Dh2c>
    ensures { result ≡ option_map BodyOf.dh2c_of (option_map Meaning.client_reconnect_of asked) }
{
    match asked {
        Some(c) => Some(Dh2c {
            file: file_id(c.file),
            guid: guid_id(c.guid),
            persistent: true,
        }),
        None => None,
    }
}

fn contexts_of(alloc: Global, r: &ClientCreate) -> Result<Bytes, AllocError>
    ensures { IfOk result (λ b. b ≡ create_contexts_spelling (BodyOf.contexts_of (Meaning.client_create_of r.now))) }
{
    let asked = CreateContexts {
        dh2q: dh2q_of(r.durable),
        dh2c: dh2c_of(r.reconnect),
        mxac: r.maximal,
        qfid: r.disk_id,
    };
    write_chain(alloc, &asked)
}

// No oplock is asked, and ImpersonationLevel is 2.
#[tactic(auto, using(crate::proofs::writing::Contexts::asked_short))]
fn create(alloc: Global, r: &ClientCreate) -> Result<Bytes, WriteError>
    ensures { BodyWrites (length (utf16 r.now.path) < 2 ^ 16)
        (create_request_spelling (BodyOf.create_value (Meaning.client_create_of r.now))) result }
{
    let name = utf16_of(alloc, r.path.as_str())?;
    if name.len() >= 0x1_0000 {
        return Err(WriteError::Unwritable);
    }
    let contexts = contexts_of(alloc, r)?;
    let value = wire_bytes::CreateRequest {
        requested_oplock_level: 0,
        impersonation_level: 2,
        desired_access: r.access,
        file_attributes: r.attributes,
        share_access: r.share,
        create_disposition: r.disposition,
        create_options: r.options,
        name: name.as_slice(),
        contexts: contexts.as_slice(),
    };
    Ok(write_create_request(alloc, &value)?)
}

fn close(alloc: Global, file: u128, query: bool) -> Result<Bytes, AllocError>
    ensures { IfOk result (λ b. b ≡ close_request_spelling (BodyOf.close_value file query)) }
{
    let value = CloseRequest {
        flags: bit_if(query, 1) as u16,
        file_id: file_id(file),
    };
    write_close_request(alloc, &value)
}

fn flush(alloc: Global, file: u128) -> Result<Bytes, AllocError>
    ensures { IfOk result (λ b. b ≡ flush_request_spelling (BodyOf.flush_value file)) }
{
    let value = FlushRequest {
        file_id: file_id(file),
    };
    write_flush_request(alloc, &value)
}

fn read(
    alloc: Global,
    file: u128,
    at: u64,
    size: u32,
    minimum: u32,
    channel: u32,
) -> Result<Bytes, AllocError>
    ensures { IfOk result (λ b. b ≡ read_request_spelling (BodyOf.read_value file at size minimum channel)) }
{
    let value = ReadRequest {
        flags: 0,
        length: size,
        offset: at,
        file_id: file_id(file),
        minimum_count: minimum,
        channel,
        remaining_bytes: 0,
    };
    write_read_request(alloc, &value)
}

fn write(
    alloc: Global,
    file: u128,
    at: u64,
    bytes: &[u8],
    channel: u32,
) -> Result<Bytes, WriteError>
    ensures { BodyWrites (length bytes.now < 2 ^ 32) (write_request_spelling (BodyOf.write_value file at bytes.now channel)) result }
{
    if bytes.len() >= 0x1_0000_0000 {
        return Err(WriteError::Unwritable);
    }
    let value = WriteRequest {
        offset: at,
        file_id: file_id(file),
        channel,
        remaining_bytes: 0,
        flags: 0,
        payload: bytes,
    };
    Ok(write_write_request(alloc, &value)?)
}

/// Elements of a LOCK as bytes, 24 each (MS-SMB2 2.2.26.1).
pub fn elements_bytes(alloc: Global, elements: &[Element]) -> Result<Bytes, AllocError>
    ensures { IfOk result (λ b. b ≡ flat_map (λ e. lock_element_spelling (BodyOf.element_of e)) elements.now) }
{
    let mut bytes = Bytes::new(alloc);
    for element in elements {
        let value = LockElement {
            offset: element.at,
            length: element.length,
            flags: element.flags,
        };
        push_lock_element(&mut bytes, &value)?;
    }
    Ok(bytes)
}

// A LockSequence, where its 28 bits hold the index and its 4 bits the number.
fn sequence_of(index: u32, number: u8) -> Option<u32>
    ensures { MatchOption result ((index < 2 ^ 28) × (number < 16) → ⊥)
        (λ s. (s ≡ 16 * index + number) × (index < 2 ^ 28) × (number < 16)) }
{
    if index >= 0x1000_0000 || number >= 16 {
        return None;
    }
    Some(16 * index + number as u32)
}

#[tactic(auto, using(crate::proofs::writing::Contexts::length_elements))]
fn lock(
    alloc: Global,
    file: u128,
    index: u32,
    number: u8,
    elements: &[Element],
) -> Result<Bytes, WriteError>
    ensures { BodyWrites ((index < 2 ^ 28) × (number < 16) × (1 ≤ length elements.now) × (length elements.now < 2 ^ 16))
        (lock_request_spelling (BodyOf.lock_value file index number elements.now)) result }
{
    let Some(lock_sequence) = sequence_of(index, number) else {
        return Err(WriteError::Unwritable);
    };
    if elements.is_empty() || elements.len() >= 0x1_0000 {
        return Err(WriteError::Unwritable);
    }
    let locks = elements_bytes(alloc, elements)?;
    let value = LockRequest {
        lock_sequence,
        file_id: file_id(file),
        locks: locks.as_slice(),
    };
    Ok(write_lock_request(alloc, &value)?)
}

#[tactic(auto, unfolding(spec_commands::specs::Tables::bit_if))]
fn list_flags(restart: bool, single: bool) -> u8
    ensures { result ≡ bit_if restart 1 + bit_if single 2 }
{
    let first = if restart { 1u8 } else { 0 };
    if single { first + 2 } else { first }
}

fn list(
    alloc: Global,
    file: u128,
    class: u8,
    restart: bool,
    single: bool,
    pattern: &str,
    room: u32,
) -> Result<Bytes, WriteError>
    ensures { BodyWrites (length (utf16 pattern.now) < 2 ^ 16)
        (query_directory_request_spelling (BodyOf.list_value file class restart single pattern.now room)) result }
{
    let name = utf16_of(alloc, pattern)?;
    if name.len() >= 0x1_0000 {
        return Err(WriteError::Unwritable);
    }
    let value = QueryDirectoryRequest {
        file_information_class: class,
        flags: list_flags(restart, single),
        file_index: 0,
        file_id: file_id(file),
        output_buffer_length: room,
        name: name.as_slice(),
    };
    Ok(write_query_directory_request(alloc, &value)?)
}

fn query(alloc: Global, file: u128, class: u8, room: u32) -> Result<Bytes, AllocError>
    ensures { IfOk result (λ b. b ≡ query_info_request_spelling (BodyOf.query_value file class room)) }
{
    let value = QueryInfoRequest {
        info_type: 1,
        file_info_class: class,
        output_buffer_length: room,
        additional_information: 0,
        flags: 0,
        file_id: file_id(file),
        input: &[],
    };
    write_query_info_request(alloc, &value)
}

fn basic_bytes(alloc: Global, basic: &Basic) -> Result<Bytes, AllocError>
    ensures { IfOk result (λ b. b ≡ file_basic_information_spelling (BodyOf.basic_value basic.now)) }
{
    let value = FileBasicInformation {
        creation_time: basic.created,
        last_access_time: basic.accessed,
        last_write_time: basic.written,
        change_time: basic.changed,
        file_attributes: basic.attributes,
    };
    write_file_basic_information(alloc, &value)
}

fn rename_bytes(alloc: Global, replace: bool, path: &str) -> Result<Bytes, WriteError>
    ensures { BodyWrites (length (utf16 path.now) < 2 ^ 32)
        (file_rename_information_spelling
        (record { replace_if_exists = bit_if replace 1; root_directory = 0; name = utf16 path.now })) result }
{
    let name = utf16_of(alloc, path)?;
    if name.len() >= 0x1_0000_0000 {
        return Err(WriteError::Unwritable);
    }
    let value = FileRenameInformation {
        replace_if_exists: bit_if(replace, 1),
        root_directory: 0,
        name: name.as_slice(),
    };
    Ok(write_file_rename_information(alloc, &value)?)
}

fn delete_bytes(alloc: Global, marked: bool) -> Result<Bytes, AllocError>
    ensures { IfOk result (λ b. b ≡ file_disposition_information_spelling (record { delete_pending = bit_if marked 1 })) }
{
    let value = FileDispositionInformation {
        delete_pending: bit_if(marked, 1),
    };
    write_file_disposition_information(alloc, &value)
}

fn allocation_bytes(alloc: Global, size: u64) -> Result<Bytes, AllocError>
    ensures { IfOk result (λ b. b ≡ file_allocation_information_spelling (record { allocation_size = size })) }
{
    let value = FileAllocationInformation {
        allocation_size: size,
    };
    write_file_allocation_information(alloc, &value)
}

fn end_bytes(alloc: Global, size: u64) -> Result<Bytes, AllocError>
    ensures { IfOk result (λ b. b ≡ file_end_of_file_information_spelling (record { end_of_file = size })) }
{
    let value = FileEndOfFileInformation { end_of_file: size };
    write_file_end_of_file_information(alloc, &value)
}

fn set_position_bytes(alloc: Global, position: u64) -> Result<Bytes, AllocError>
    ensures { IfOk result (λ b. b ≡ file_position_information_spelling (record { current_byte_offset = position })) }
{
    let value = FilePositionInformation {
        current_byte_offset: position,
    };
    write_file_position_information(alloc, &value)
}

fn set_mode_bytes(alloc: Global) -> Result<Bytes, AllocError>
    ensures { IfOk result (λ b. b ≡ file_mode_information_spelling (record { mode = 0 })) }
{
    write_file_mode_information(alloc, &FileModeInformation { mode: 0 })
}

fn setting_bytes(alloc: Global, setting: &Setting) -> Result<Bytes, WriteError>
    ensures { BodyWrites (FitsSetting (Meaning.setting_of setting.now)) (BodyOf.setting_bytes (Meaning.setting_of setting.now)) result }
{
    match setting {
        Setting::SetBasic { basic } => Ok(basic_bytes(alloc, basic)?),
        Setting::Rename { replace, path } => rename_bytes(alloc, *replace, path.as_str()),
        Setting::SetDelete { marked } => Ok(delete_bytes(alloc, *marked)?),
        Setting::SetAllocation { size } => Ok(allocation_bytes(alloc, *size)?),
        Setting::SetEnd { size } => Ok(end_bytes(alloc, *size)?),
        Setting::SetPosition { position } => Ok(set_position_bytes(alloc, *position)?),
        Setting::SetMode => Ok(set_mode_bytes(alloc)?),
    }
}

fn class_of(setting: &Setting) -> u8
    ensures { result ≡ BodyOf.class_of (Meaning.setting_of setting.now) }
{
    match setting {
        Setting::SetBasic { basic: _ } => 4,
        Setting::Rename {
            replace: _,
            path: _,
        } => 10,
        Setting::SetDelete { marked: _ } => 13,
        Setting::SetAllocation { size: _ } => 19,
        Setting::SetEnd { size: _ } => 20,
        Setting::SetPosition { position: _ } => 14,
        Setting::SetMode => 16,
    }
}

fn set(alloc: Global, file: u128, setting: &Setting) -> Result<Bytes, WriteError>
    ensures { BodyWrites (FitsAsked (asks.SetInfo file (Meaning.setting_of setting.now)))
        (set_info_request_spelling (BodyOf.set_value file (Meaning.setting_of setting.now))) result }
{
    let payload = setting_bytes(alloc, setting)?;
    if payload.len() >= 0x1_0000_0000 {
        return Err(WriteError::Unwritable);
    }
    let value = SetInfoRequest {
        info_type: 1,
        file_info_class: class_of(setting),
        additional_information: 0,
        file_id: file_id(file),
        payload: payload.as_slice(),
    };
    Ok(write_set_info_request(alloc, &value)?)
}

/// The body that the client writes for a command, behind a header (MS-SMB2 3.2.4): nothing for no command. `Unwritable` comes exactly where a text, the bytes of a WRITE or what
/// a SET_INFO carries are longer than their field can say, or a LOCK has no element, more than 65,535, an index of 2^28 or
/// more or a number of 16 or more.
#[tactic(auto, unfolding(spec_commands::specs::BodyOf::body_of))]
pub fn body_of(alloc: Global, command: &ClientCommand<'_>) -> Result<Bytes, WriteError>
    ensures { BodyWrites (FitsAsked (Meaning.client_command_of command.now)) (BodyOf.body_of (Meaning.client_command_of command.now)) result }
{
    // Long by its commands alone: an arm picks a writer, which is a function of its own because each `?` costs the
    // proof of what it leaves.
    match command {
        ClientCommand::TreeConnect { share } => tree_connect(alloc, share.as_str()),
        ClientCommand::Create(request) => create(alloc, request),
        ClientCommand::Close { file, query } => Ok(close(alloc, *file, *query)?),
        ClientCommand::Flush { file } => Ok(flush(alloc, *file)?),
        ClientCommand::Read {
            file,
            at,
            size,
            minimum,
            channel,
        } => Ok(read(alloc, *file, *at, *size, *minimum, *channel)?),
        ClientCommand::Write {
            file,
            at,
            bytes,
            channel,
        } => write(alloc, *file, *at, bytes, *channel),
        ClientCommand::Lock {
            file,
            index,
            number,
            elements,
        } => lock(alloc, *file, *index, *number, elements.as_slice()),
        ClientCommand::ListDirectory {
            file,
            class,
            restart,
            single,
            pattern,
            room,
        } => list(
            alloc,
            *file,
            *class,
            *restart,
            *single,
            pattern.as_str(),
            *room,
        ),
        ClientCommand::QueryFile { file, class, room } => Ok(query(alloc, *file, *class, *room)?),
        ClientCommand::SetInfo { file, setting } => set(alloc, *file, setting),
        ClientCommand::Nothing => Ok(Bytes::new(alloc)),
    }
}
