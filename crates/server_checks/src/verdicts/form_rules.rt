//! The form rules of a request (MS-SMB2 3.3.5): the status of the first that it breaks.
ghost use Rattle.std.specs.Prelude.{◌≡◌, ◌&&◌, None, Some, if◌then◌else◌};
ghost use Rattle.wire_commands.specs.values.Meaning.{command_of, create_of, setting_of};
ghost use Rattle.spec_exchange.specs.Commands.{asks_directory, all_lock, all_unlock, create_form, form, has_bit, is_short_pattern, list_form, lock_form, locks, made_form, room_form, setting_form, transfer_form, SetPosition};

use crate::verdicts::bits::has_bit;
use crate::verdicts::status::{INVALID_PARAMETER, OBJECT_NAME_INVALID};
use store_files::{path_form, units};
use wire_commands::{Command, CreateRequest, Element, Setting};

const MAX_BYTES: u64 = 1_048_576;

/// The status of the first form rule that a command breaks.
pub fn form(command: &Command<'_>) -> Option<u32>
    ensures { result ≡ form (command_of command.now) }
{
    match command {
        Command::Unreadable { status } => Some(*status),
        Command::Setup(request) => setup_form(request.readable),
        Command::Create(request) => create_form(request),
        Command::Read {
            at,
            size,
            channel,
            ..
        } => transfer_form(*at, u64::from(*size), *channel),
        Command::Write {
            at,
            bytes,
            channel,
            ..
        } => transfer_form(*at, bytes.len() as u64, *channel),
        Command::Lock { elements, .. } => lock_form(elements),
        Command::Ioctl { room, .. } => room_form(*room),
        Command::ListDirectory { pattern, room, .. } => list_form(pattern.as_str(), *room),
        Command::QueryFile { room, .. } => room_form(*room),
        Command::QueryVolume { room, .. } => room_form(*room),
        Command::SetInfo { setting, .. } => setting_form(setting),
        _ => None,
    }
}

// A body that reads.
fn setup_form(readable: bool) -> Option<u32>
    ensures { result ≡ (if readable then None else Some 0xc000_000d) }
{
    if readable {
        return None;
    }
    Some(INVALID_PARAMETER)
}

fn setting_form(setting: &Setting) -> Option<u32>
    ensures { result ≡ setting_form (setting_of setting.now) }
{
    match setting {
        Setting::Rename { path, .. } => path_form(path.as_str()),
        Setting::SetPosition { position } => position_form(*position),
        _ => None,
    }
}

// A position is a number of 64 bits with a sign, and none is below 0.
fn position_form(position: u64) -> Option<u32>
    ensures { result ≡ setting_form (SetPosition position) }
{
    if position < 0x8000_0000_0000_0000 {
        return None;
    }
    Some(INVALID_PARAMETER)
}

// What asks to attach asks for nothing else, and no more of it is looked at (3.3.5.9.12).
fn create_form(request: &CreateRequest) -> Option<u32>
    ensures { result ≡ create_form (create_of request.now) }
{
    if request.reconnect.is_none() {
        return made_form(request);
    }
    if request.durable.is_some() {
        return Some(INVALID_PARAMETER);
    }
    None
}

fn made_form(request: &CreateRequest) -> Option<u32>
    ensures { result ≡ made_form (create_of request.now) }
{
    if request.disposition > 5 {
        return Some(INVALID_PARAMETER);
    }
    if asks_both(request.options) {
        return Some(INVALID_PARAMETER);
    }
    if asks_temporary_directory(request) {
        return Some(INVALID_PARAMETER);
    }
    path_form(request.path.as_str())
}

// A directory, and no directory.
fn asks_both(options: u32) -> bool
    ensures { result ≡ (has_bit options 0x1 && has_bit options 0x40) }
{
    has_bit(options, 0x1) && has_bit(options, 0x40)
}

// No directory is TEMPORARY (MS-FSA 2.1.5.1.1).
fn asks_temporary_directory(request: &CreateRequest) -> bool
    ensures { result ≡ (asks_directory (create_of request.now) && has_bit request.now.attributes 0x100) }
{
    has_bit(request.options, 0x1) && has_bit(request.attributes, 0x100)
}

// At most 1,048,576 bytes, no RDMA channel, an end below 2^63.
fn transfer_form(at: u64, size: u64, channel: u32) -> Option<u32>
    ensures { result ≡ transfer_form at size channel }
{
    if size > MAX_BYTES {
        return Some(INVALID_PARAMETER);
    }
    if channel != 0 {
        return Some(INVALID_PARAMETER);
    }
    if u128::from(at) + u128::from(size) < 0x8000_0000_0000_0000 {
        return None;
    }
    Some(INVALID_PARAMETER)
}

fn room_form(room: u32) -> Option<u32>
    ensures { result ≡ room_form room }
{
    if u64::from(room) > MAX_BYTES {
        return Some(INVALID_PARAMETER);
    }
    None
}

// A pattern of at most 1,024 units; no text has more units than bytes.
fn list_form(pattern: &str, room: u32) -> Option<u32>
    ensures { result ≡ list_form pattern.now room }
{
    if u64::from(room) > MAX_BYTES {
        return Some(INVALID_PARAMETER);
    }
    if is_short(pattern.as_bytes()) {
        return None;
    }
    Some(OBJECT_NAME_INVALID)
}

fn is_short(pattern: &[u8]) -> bool
    ensures { result ≡ is_short_pattern pattern.now }
{
    pattern.len() <= 1024 || units(pattern) <= 1024
}

fn lock_form(elements: &[Element]) -> Option<u32>
    ensures { result ≡ lock_form elements.now }
{
    if elements.is_empty() {
        return Some(INVALID_PARAMETER);
    }
    if all_lock(elements) {
        return None;
    }
    if all_unlock(elements) {
        return None;
    }
    Some(INVALID_PARAMETER)
}

/// Each element locks, none unlocks.
pub fn all_lock(elements: &[Element]) -> bool
    ensures { result ≡ all_lock elements.now }
{
    for one in elements {
        if !locks(one.flags) {
            return false;
        }
    }
    true
}

fn locks(flags: u32) -> bool
    ensures { result ≡ locks flags }
{
    flags == 0x1 || (flags == 0x2 || (flags == 0x11 || flags == 0x12))
}

fn all_unlock(elements: &[Element]) -> bool
    ensures { result ≡ all_unlock elements.now }
{
    for one in elements {
        if one.flags != 0x4 {
            return false;
        }
    }
    true
}
