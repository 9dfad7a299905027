// Requests, by their words. A file is named by its open's id.
use crate::event_calls::{Fault, kept};
use crate::words::{
    coded, has, id, id_of, number, number_of, option, path, small, small_or, tiny, word,
};
use std::alloc::{AllocError, Global};
use wire_bytes::{Header, Text};
use wire_commands::{
    Basic, Command, CreateRequest, Durable, Element, Reconnect, Request, Setting, request_of,
};

fn path_in(alloc: Global, words: &[&str], i: usize) -> Result<Text, AllocError> {
    Ok(Text::from_string(path(alloc, word(words, i))?))
}

// The bits of letters `rwd`, or `x` and hexadecimal digits.
fn letters(word: &str, read: u32, write: u32, delete: u32) -> u32 {
    if let Some(digits) = word.strip_prefix("x") {
        return coded(digits);
    }
    let read = if word.contains("r") { read } else { 0 };
    let write = if word.contains("w") { write } else { 0 };
    let delete = if word.contains("d") { delete } else { 0 };
    read | write | delete
}

fn disposition_of(words: &[&str]) -> u32 {
    match word(words, 4) {
        "supersede" => 0,
        "open" => 1,
        "create" => 2,
        "openif" => 3,
        "overwrite" => 4,
        "overwriteif" => 5,
        _ => small(words, 4),
    }
}

// The flags `dir`, `file` and `closes`, of a delete on close.
fn options_of(words: &[&str]) -> u32 {
    let directory = if has(words, "dir") { 0x1 } else { 0 };
    let file = if has(words, "file") { 0x40 } else { 0 };
    let closes = if has(words, "closes") { 0x1000 } else { 0 };
    directory | file | closes
}

// `guid=GUID`, and with `lasts=MS` of an open that outlives its session.
fn durable_of(words: &[&str]) -> Option<Durable> {
    let guid = option(words, "guid")?;
    Some(Durable {
        timeout: small_or(words, "lasts", 0),
        persistent: option(words, "lasts").is_some(),
        guid: number_of(guid) as u128,
    })
}

// `again=ID:GUID`.
fn reconnect_of(words: &[&str]) -> Option<Reconnect> {
    let (file, guid) = option(words, "again")?.split_once(":")?;
    Some(Reconnect {
        file: id_of(file),
        guid: number_of(guid) as u128,
    })
}

// `create PATH ACCESS SHARE DISPOSITION`.
fn create(alloc: Global, words: &[&str]) -> Result<Command<'static>, AllocError> {
    let path = path_in(alloc, words, 1)?;
    Ok(Command::Create(CreateRequest {
        path,
        access: letters(word(words, 2), 0x81, 0x102, 0x1_0000),
        share: letters(word(words, 3), 1, 2, 4),
        attributes: coded(option(words, "attributes").unwrap_or("0")),
        disposition: disposition_of(words),
        options: options_of(words),
        durable: durable_of(words),
        reconnect: reconnect_of(words),
        maximal: has(words, "maximal"),
        disk_id: has(words, "disk"),
    }))
}

// `lock ID INDEX NUMBER ELEMENTS`: elements `AT+LENGTH:FLAGS` with commas between them, `-` for none.
fn lock(alloc: Global, words: &[&str]) -> Result<Command<'static>, Fault> {
    let mut elements = Vec::new(alloc);
    for text in word(words, 4).split(",") {
        if text != "-" {
            let (at, rest) = text.split_once("+").unwrap_or((text, ""));
            let (length, flags) = rest.split_once(":").unwrap_or((rest, ""));
            let element = Element {
                at: number_of(at),
                length: number_of(length),
                flags: coded(flags),
            };
            if elements.push(element).is_err() {
                return Err(Fault::Memory);
            }
        }
    }
    Ok(Command::Lock {
        file: id(words, 1),
        index: small(words, 2),
        number: tiny(words, 3),
        elements,
    })
}

// `rename ID PATH`, with the flag `over` where it replaces.
fn rename(alloc: Global, words: &[&str]) -> Result<Command<'static>, AllocError> {
    let path = path_in(alloc, words, 2)?;
    let replace = has(words, "over");
    Ok(Command::SetInfo {
        file: id(words, 1),
        setting: Setting::Rename { replace, path },
    })
}

// What sets a number or a mark; `basic ID CREATED ACCESSED WRITTEN CHANGED ATTRIBUTES`.
fn setting_of(words: &[&str]) -> Option<Setting> {
    let size = number(words, 2);
    match word(words, 0) {
        "basic" => Some(Setting::SetBasic {
            basic: Basic {
                created: size,
                accessed: number(words, 3),
                written: number(words, 4),
                changed: number(words, 5),
                attributes: coded(word(words, 6)),
            },
        }),
        "mark" => Some(Setting::SetDelete { marked: true }),
        "unmark" => Some(Setting::SetDelete { marked: false }),
        "allocate" => Some(Setting::SetAllocation { size }),
        "size" => Some(Setting::SetEnd { size }),
        "seek" => Some(Setting::SetPosition { position: size }),
        "mode" => Some(Setting::SetMode),
        _ => None,
    }
}

// `list ID CLASS ROOM PATTERN`, with the flags `restart` and `single`.
fn list(alloc: Global, words: &[&str]) -> Result<Command<'static>, AllocError> {
    let pattern = path_in(alloc, words, 4)?;
    Ok(Command::ListDirectory {
        file: id(words, 1),
        class: tiny(words, 2),
        restart: has(words, "restart"),
        single: has(words, "single"),
        pattern,
        room: small(words, 3),
    })
}

/// `write ID AT BYTES`, whose bytes are handed in, with the option `channel`.
pub fn write<'a>(words: &[&str], bytes: &'a [u8]) -> Command<'a> {
    Command::Write {
        file: id(words, 1),
        at: number(words, 2),
        bytes,
        channel: small_or(words, "channel", 0),
    }
}

// A request that owns nothing, where it is one: `read ID AT SIZE`, with the options `minimum` and `channel`, `ioctl ID CODE ROOM`, where
// `none` is the FileId of 16 bytes FF, and more by their numbers.
fn plain(words: &[&str]) -> Option<Command<'static>> {
    let file = id(words, 1);
    let class = tiny(words, 2);
    let room = small(words, 3);
    match word(words, 0) {
        "close" => Some(Command::Close {
            file,
            query: has(words, "query"),
        }),
        "flush" => Some(Command::Flush { file }),
        "read" => Some(Command::Read {
            file,
            at: number(words, 2),
            size: room,
            minimum: small_or(words, "minimum", 0),
            channel: small_or(words, "channel", 0),
        }),
        "ioctl" => Some(Command::Ioctl {
            file: if word(words, 1) == "none" {
                u64::MAX
            } else {
                file
            },
            code: coded(word(words, 2)),
            room,
        }),
        "query" => Some(Command::QueryFile { file, class, room }),
        "volume" => Some(Command::QueryVolume { file, class, room }),
        "unreadable" => Some(Command::Unreadable {
            status: coded(word(words, 1)),
        }),
        "logoff" => Some(Command::Logoff),
        "disconnect" => Some(Command::TreeDisconnect),
        _ => match setting_of(words) {
            Some(setting) => Some(Command::SetInfo { file, setting }),
            None => None,
        },
    }
}

/// `raw COMMAND BODY`, whose body stands in the message behind 64 bytes of a header, with the option `charge`.
pub fn raw<'a>(alloc: Global, words: &[&str], message: &'a [u8]) -> Result<Command<'a>, Fault> {
    let header = Header {
        charge: (small_or(words, "charge", 1) & 0xffff) as u16,
        status: 0,
        command: (small(words, 1) & 0xffff) as u16,
        credits: 1,
        flags: 0,
        next: 0,
        message: 0,
        tree: 0,
        session: 0,
        signature: [0; 16],
    };
    match request_of(alloc, &header, message) {
        Ok(Some(Request::Command(command))) => Ok(command),
        Ok(_) => Err(Fault::Other),
        Err(_) => Err(Fault::Memory),
    }
}

fn connect(alloc: Global, words: &[&str]) -> Result<Command<'static>, AllocError> {
    let share = path_in(alloc, words, 1)?;
    Ok(Command::TreeConnect { share })
}

/// The request of these words, where it is no WRITE.
pub fn request(alloc: Global, words: &[&str]) -> Result<Command<'static>, Fault> {
    match word(words, 0) {
        "connect" => kept(connect(alloc, words)),
        "create" => kept(create(alloc, words)),
        "lock" => lock(alloc, words),
        "list" => kept(list(alloc, words)),
        "rename" => kept(rename(alloc, words)),
        _ => match plain(words) {
            Some(command) => Ok(command),
            None => Err(Fault::Other),
        },
    }
}
