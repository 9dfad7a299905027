// The requests of operations (MS-SMB2 3.2.4).
ghost use Rattle.std.specs.Prelude.{◌≡◌, true, false, ◌∷◌, [], option_map, IfOk};
ghost use Rattle.spec_exchange.specs.Commands.{Lock as Locking, ListDirectory as Listing, SetInfo as Sets, Rename as Renames};
ghost use Rattle.spec_exchange.specs.Operations.{request_of, reconnect_of, create_request, options_of, only_written, lock_flags, element};
ghost use Rattle.wire_commands.specs.values.Meaning.{client_command_of, client_create_of, client_reconnect_of, durable_of};
ghost use Rattle.client_values.specs.operations.Meaning.{op_of};

use crate::operations::OpKind;
use spec_exchange::values::{Basic, Element};
use std::alloc::{AllocError, Global};
use wire_bytes::Text;
use wire_commands::{ClientCommand, ClientCreate, ClientReconnect, Durable, Setting};

/// How an operation goes out: its CreateGuid, its open's id, and the lock slot that it took with the number there.
#[derive(Clone, Copy, Debug, PartialEq, Eq)]
pub struct Ids {
    pub guid: u128,
    pub file: u128,
    pub slot: u8,
    pub number: u8,
}

fn options(directory: bool) -> u32
    ensures { result ≡ options_of directory }
{
    if directory { 0x1 } else { 0x40 }
}

fn lock_flags(exclusive: bool) -> u32
    ensures { result ≡ lock_flags exclusive }
{
    if exclusive { 0x12 } else { 0x11 }
}

/// The written time alone; 0 leaves the others.
fn only_written(time: u64) -> Basic
    ensures { result ≡ only_written time }
{
    Basic {
        created: 0,
        accessed: 0,
        written: time,
        changed: 0,
        attributes: 0,
    }
}

fn element(alloc: Global, at: u64, length: u64, flags: u32) -> Result<Vec<Element>, AllocError>
    ensures { IfOk result (λ v. v.items ≡ element at length flags) }
{
    let mut elements = Vec::new(alloc);
    elements.push(Element { at, length, flags })?;
    Ok(elements)
}

/// CREATE of a path that is copied, with these contexts.
fn create_command(
    path: &Text,
    access: u32,
    share: u32,
    disposition: u32,
    directory: bool,
    durable: Option<Durable>,
    reconnect: Option<ClientReconnect>,
) -> Result<ClientCreate, AllocError>
    ensures { IfOk result (λ c. client_create_of c
        ≡ create_request path.now access share disposition directory (option_map durable_of durable)
        (option_map client_reconnect_of reconnect)) }
{
    let path = path.copy()?;
    Ok(ClientCreate {
        path,
        access,
        share,
        attributes: 0,
        disposition,
        options: options(directory),
        durable,
        reconnect,
        maximal: false,
        disk_id: false,
    })
}

fn lock_of<'a>(
    alloc: Global,
    ids: Ids,
    at: u64,
    length: u64,
    flags: u32,
) -> Result<ClientCommand<'a>, AllocError>
    ensures { IfOk result (λ c. client_command_of c ≡ Locking ids.file ids.slot ids.number (element at length flags)) }
{
    let elements = element(alloc, at, length, flags)?;
    Ok(ClientCommand::Lock {
        file: ids.file,
        index: u32::from(ids.slot),
        number: ids.number,
        elements,
    })
}

/// All names of a directory, in one answer.
fn list_of<'a>(alloc: Global, file: u128) -> Result<ClientCommand<'a>, AllocError>
    ensures { IfOk result (λ c. client_command_of c ≡ Listing file 12 true false (42 ∷ []) 1048576) }
{
    let pattern = Text::from_str(alloc, "*")?;
    Ok(ClientCommand::ListDirectory {
        file,
        class: 12,
        restart: true,
        single: false,
        pattern,
        room: 1_048_576,
    })
}

fn rename_of<'a>(file: u128, path: &Text) -> Result<ClientCommand<'a>, AllocError>
    ensures { IfOk result (λ c. client_command_of c ≡ Sets file (Renames false path.now)) }
{
    let path = path.copy()?;
    Ok(ClientCommand::SetInfo {
        file,
        setting: Setting::Rename {
            replace: false,
            path,
        },
    })
}

/// The request of an operation. What it writes is borrowed; a path, a lock's range and a pattern take memory.
pub fn request_of<'a>(
    alloc: Global,
    kind: &'a OpKind,
    ids: Ids,
) -> Result<ClientCommand<'a>, AllocError>
    ensures { IfOk result (λ c. client_command_of c ≡ request_of (op_of kind.now) ids.guid ids.file ids.slot ids.number) }
{
    // What takes memory (a path, a range, a pattern) is a function of its own, because each `?` costs the proof of
    // what it leaves; the other arms are plain values.
    let file = ids.file;
    match kind {
        OpKind::Create {
            path,
            access,
            share,
            disposition,
            persist,
            directory,
        } => {
            // For a plain open too: the server remembers a CreateGuid, so that a create which is sent again doesn't
            // act twice.
            let durable = Durable {
                timeout: 0,
                persistent: *persist,
                guid: ids.guid,
            };
            let request = create_command(
                path,
                *access,
                *share,
                *disposition,
                *directory,
                Some(durable),
                None,
            )?;
            Ok(ClientCommand::Create(request))
        }
        OpKind::Write { at, bytes, .. } => Ok(ClientCommand::Write {
            file,
            at: *at,
            bytes: bytes.as_slice(),
            channel: 0,
        }),
        OpKind::Read { at, length, .. } => Ok(ClientCommand::Read {
            file,
            at: *at,
            size: *length,
            minimum: 0,
            channel: 0,
        }),
        OpKind::Lock {
            at,
            length,
            exclusive,
            ..
        } => lock_of(alloc, ids, *at, *length, lock_flags(*exclusive)),
        OpKind::Unlock { at, length, .. } => lock_of(alloc, ids, *at, *length, 0x4),
        OpKind::Flush { .. } => Ok(ClientCommand::Flush { file }),
        OpKind::Stat { .. } => Ok(ClientCommand::QueryFile {
            file,
            class: 5,
            room: 24,
        }),
        OpKind::List { .. } => list_of(alloc, file),
        OpKind::Close { .. } => Ok(ClientCommand::Close { file, query: false }),
        OpKind::SetEnd { length, .. } => Ok(ClientCommand::SetInfo {
            file,
            setting: Setting::SetEnd { size: *length },
        }),
        OpKind::SetTime { time, .. } => Ok(ClientCommand::SetInfo {
            file,
            setting: Setting::SetBasic {
                basic: only_written(*time),
            },
        }),
        OpKind::Rename { path, .. } => rename_of(file, path),
        OpKind::Remove { .. } => Ok(ClientCommand::SetInfo {
            file,
            setting: Setting::SetDelete { marked: true },
        }),
    }
}

/// The request to attach the open of a create, in an operation's place (MS-SMB2 3.2.4.4): the create's own path and numbers,
/// its open's id and its CreateGuid. Of another operation it is one that asks for nothing.
pub fn reconnect_of<'a>(
    create: &OpKind,
    guid: u128,
    file: u128,
) -> Result<ClientCommand<'a>, AllocError>
    ensures { IfOk result (λ c. client_command_of c ≡ reconnect_of (op_of create.now) guid file) }
{
    match create {
        OpKind::Create {
            path,
            access,
            share,
            disposition,
            directory,
            ..
        } => {
            let reconnect = ClientReconnect { file, guid };
            let request = create_command(
                path,
                *access,
                *share,
                *disposition,
                *directory,
                None,
                Some(reconnect),
            )?;
            Ok(ClientCommand::Create(request))
        }
        _ => Ok(ClientCommand::Nothing),
    }
}
