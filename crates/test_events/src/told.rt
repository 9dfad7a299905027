// The answer to an event: `ok` or the status, ` acts` where it acted, the ids that aren't its request's, and what a success tells.
use crate::event_calls::{Envelope, Fault, check_last, kept, keys_behind};
use server_effects::Answer;
use std::alloc::{AllocError, Global};
use std::fmt::Write;
use wait_locks::Later;
use wire_commands::{Body, CreateReply, Info, Named, Reply};

/// Hexadecimal digits, `-` for no bytes.
pub fn push_digits(said: &mut String, bytes: &[u8]) -> Result<(), AllocError> {
    if bytes.is_empty() {
        return said.push_str("-");
    }
    for byte in bytes {
        write!(said, "{:02x}", *byte)?;
    }
    Ok(())
}

/// `EPOCH.COUNTER`, or 0.
fn push_id(said: &mut String, id: u128) -> Result<(), AllocError> {
    if id == 0 {
        return said.push_str("0");
    }
    write!(said, "{}.{}", id >> 32, id & 0xffff_ffff)
}

// `FILE KIND SIZE TIMES ATTRIBUTES`, with `pending` where it goes with its last open. The four times stand with commas between them, or
// once where they are the same.
fn push_info(said: &mut String, info: &Info) -> Result<(), AllocError> {
    let kind = if info.is_directory { "dir" } else { "file" };
    let b = info.times;
    write!(said, "{} {kind} {} at {}", info.file, info.size, b.created)?;
    if b.accessed != b.created || b.written != b.created || b.changed != b.created {
        write!(said, ",{},{},{}", b.accessed, b.written, b.changed)?;
    }
    let pending = if info.is_delete_pending {
        " pending"
    } else {
        ""
    };
    write!(said, " {:x}{pending}", b.attributes)
}

// `ID ACTION INFO`, and what its contexts tell: `timeout MS`, `maximal` and `disk`.
fn push_created(said: &mut String, reply: &CreateReply) -> Result<(), AllocError> {
    let action = match reply.action {
        0 => "superseded",
        1 => "opened",
        2 => "created",
        _ => "overwritten",
    };
    push_id(said, reply.id)?;
    write!(said, " {action} ")?;
    push_info(said, &reply.info)?;
    if let Some(timeout) = reply.timeout {
        write!(said, " timeout {timeout}")?;
    }
    let maximal = if reply.maximal { " maximal" } else { "" };
    let disk = if reply.disk_id { " disk" } else { "" };
    write!(said, "{maximal}{disk}")
}

// `NAME:FILE` for each entry.
fn push_listing(said: &mut String, class: u8, entries: &[Named]) -> Result<(), AllocError> {
    write!(said, "class {class}")?;
    for entry in entries {
        write!(said, " {}:{}", entry.name.as_str(), entry.info.file)?;
    }
    Ok(())
}

fn push_body(said: &mut String, body: &Body) -> Result<(), AllocError> {
    // A body of several parts has a function of its own; short ones stay here, because a function costs the same to
    // prove whatever its length.
    match body {
        Body::Empty => Ok(()),
        Body::Created(reply) => push_created(said, reply),
        Body::Closed { info } => push_info(said, info),
        Body::Content { bytes } => push_digits(said, bytes.as_slice()),
        Body::Count { count } => write!(said, "{count}"),
        Body::Interfaces { address } => write!(said, "{:08x}:{}", address.ip, address.port),
        Body::ObjectId { file } => write!(said, "object {file}"),
        Body::Listing { class, entries } => push_listing(said, *class, entries.as_slice()),
        Body::FileInfo {
            class,
            path,
            info,
            access,
            options,
            position,
        } => {
            let path = if path.is_empty() { "-" } else { path.as_str() };
            write!(said, "class {class} {path} ")?;
            push_info(said, info)?;
            write!(said, " access {access:x} options {options:x}")?;
            if *position == 0 {
                return Ok(());
            }
            write!(said, " position {position}")
        }
        Body::VolumeInfo { class, room, used } => {
            write!(said, "class {class} room {room} used {used}")
        }
        Body::SetUp { sealed, channel } => {
            let kind = if *sealed { "sealed" } else { "signed" };
            write!(said, "{kind} channel {channel}")
        }
        Body::Connected {
            kind,
            capabilities,
            access,
        } => write!(said, "share {kind} {capabilities:x} {access:x}"),
    }
}

fn push_status(said: &mut String, status: u32) -> Result<(), AllocError> {
    if status == 0 {
        return said.push_str("ok");
    }
    write!(said, "{status:08x}")
}

/// Puts `, on CONNECTION message ID async ID` and the status of a final response.
pub fn push_later(said: &mut String, later: &Later) -> Result<(), AllocError> {
    let message = later.message;
    write!(
        said,
        ", on {} message {message} async {} ",
        later.connection, later.async_id
    )?;
    push_status(said, later.reply.status)
}

// The status, whether it acted, the ids that aren't the request's, and what is told.
fn push_reply(
    said: &mut String,
    around: &Envelope,
    reply: &Reply,
    acted: bool,
) -> Result<(), AllocError> {
    push_status(said, reply.status)?;
    said.push_str(if acted { " acts" } else { "" })?;
    if reply.session_id != around.session {
        said.push_str(" session ")?;
        push_id(said, reply.session_id as u128)?;
    }
    if reply.tree_id != around.tree {
        write!(said, " tree {}", reply.tree_id)?;
    }
    if let Body::Empty = reply.body {
        return Ok(());
    }
    said.push_str(" ")?;
    push_body(said, &reply.body)
}

// A channel has the keys that its client has, the number that its reply tells, and a token that ends its logon.
fn check_channel(alloc: Global, around: &Envelope, answer: &Answer) -> Result<(), Fault> {
    let Some(keys) = answer.keys else {
        return Ok(());
    };
    let Some(number) = answer.channel else {
        return Err(Fault::Other);
    };
    let told = match answer.reply.body {
        Body::SetUp { channel, .. } => channel,
        _ => 0,
    };
    if keys != keys_behind(around) || told != number as u32 {
        return Err(Fault::Other);
    }
    check_last(alloc, answer.token.as_slice(), around.alone)
}

/// Puts the answer to a request that came in such an envelope.
pub fn push_answer(
    said: &mut String,
    alloc: Global,
    around: &Envelope,
    answer: &Answer,
) -> Result<(), Fault> {
    check_channel(alloc, around, answer)?;
    kept(push_reply(said, around, &answer.reply, answer.acted))
}
