// The event of a row. Behind a word of its kind stand its numbers.
use crate::values::{refusal_in, why_in};
use crate::words::{Fault, Words, kept};
use client_events::Event;
use client_values::OpKind;
use spec_exchange::values::Basic;
use std::alloc::{AllocError, Global};
use wire_bytes::{Bytes, Text};
use wire_commands::{Body, CreateReply, Info, Named};

pub fn event_of(alloc: Global, kind: &str, words: &mut Words<'_>) -> Result<Event, Fault> {
    match kind {
        "submit" => submit_of(alloc, words),
        "hear" => hear_of(alloc, words),
        _ => plain_of(kind, words),
    }
}

// An event that owns nothing.
fn plain_of(kind: &str, words: &mut Words<'_>) -> Result<Event, Fault> {
    match kind {
        "push" => Ok(Event::Push {
            channel: words.tiny(),
            credits: words.small(),
        }),
        "join" => Ok(Event::Hear {
            channel: words.tiny(),
            number: words.small(),
            asking: true,
            status: words.status(),
            body: Body::Empty,
        }),
        "cut" => Ok(Event::Cut {
            channel: words.tiny(),
        }),
        "ready" => Ok(Event::Ready {
            channel: words.tiny(),
            session: words.number(),
            tree: words.small(),
        }),
        "refused" => Ok(Event::Refused {
            channel: words.tiny(),
            why: refusal_in(words),
        }),
        "finish" => Ok(Event::Finish { why: why_in(words) }),
        _ => Err(Fault::Other("an unknown event")),
    }
}

fn hear_of(alloc: Global, words: &mut Words<'_>) -> Result<Event, Fault> {
    let channel = words.tiny();
    let number = words.small();
    let status = words.status();
    let body = body_of(alloc, status, words)?;
    Ok(Event::Hear {
        channel,
        number,
        asking: false,
        status,
        body,
    })
}

// What a success says. `-`: a body that no operation is answered.
fn body_of(alloc: Global, status: u32, words: &mut Words<'_>) -> Result<Body, Fault> {
    if status != 0 {
        return Ok(Body::Empty);
    }
    match words.next() {
        "done" => Ok(Body::Empty),
        "action" => Ok(Body::Created(CreateReply {
            action: words.small(),
            id: words.wide(),
            info: info_of(0),
            timeout: None,
            maximal: false,
            disk_id: false,
        })),
        "count" => Ok(Body::Count {
            count: words.small(),
        }),
        "length" => Ok(Body::FileInfo {
            class: 5,
            path: Text::new(alloc),
            info: info_of(words.number()),
            access: 0,
            options: 0,
            position: 0,
        }),
        "content" => content_of(alloc, words),
        "names" => listing_of(alloc, words.rest()),
        _ => Ok(Body::VolumeInfo {
            class: 7,
            room: 0,
            used: 0,
        }),
    }
}

fn info_of(size: u64) -> Info {
    Info {
        file: 1,
        is_directory: false,
        size,
        is_delete_pending: false,
        times: Basic {
            created: 0,
            accessed: 0,
            written: 0,
            changed: 0,
            attributes: 0,
        },
    }
}

fn content_of(alloc: Global, words: &mut Words<'_>) -> Result<Body, Fault> {
    let bytes = words.bytes(alloc)?;
    Ok(Body::Content {
        bytes: Bytes::from_vec(bytes),
    })
}

fn listing_of(alloc: Global, names: &str) -> Result<Body, Fault> {
    let mut entries = Vec::new(alloc);
    for name in names.split(" ") {
        if !name.is_empty() {
            let name = Text::from_str(alloc, name)?;
            entries.push(Named {
                name,
                info: info_of(0),
            })?;
        }
    }
    Ok(Body::Listing { class: 12, entries })
}

// `NUMBER KIND`, and what the operation names.
fn submit_of(alloc: Global, words: &mut Words<'_>) -> Result<Event, Fault> {
    let number = words.small();
    let kind = kind_of(alloc, words)?;
    Ok(Event::Submit { number, kind })
}

fn kind_of(alloc: Global, words: &mut Words<'_>) -> Result<OpKind, Fault> {
    match words.next() {
        "create" => kept(create_of(alloc, words)),
        "write" => kept(write_of(alloc, words)),
        "rename" => kept(rename_of(alloc, words)),
        kind => operation_of(kind, words),
    }
}

// A path of so many letters.
fn path_in(alloc: Global, words: &mut Words<'_>) -> Result<Text, AllocError> {
    let mut path = Text::new(alloc);
    for _ in 0..words.small() {
        path.push('a')?;
    }
    Ok(path)
}

fn create_of(alloc: Global, words: &mut Words<'_>) -> Result<OpKind, AllocError> {
    let persist = words.says("persist");
    let path = path_in(alloc, words)?;
    Ok(OpKind::Create {
        path,
        access: 3,
        share: 7,
        disposition: 3,
        persist,
        directory: false,
    })
}

fn write_of(alloc: Global, words: &mut Words<'_>) -> Result<OpKind, AllocError> {
    let create = words.small();
    let at = words.number();
    let bytes = vec![in alloc; 0u8; words.small() as usize]?;
    Ok(OpKind::Write {
        create,
        at,
        bytes: Bytes::from_vec(bytes),
    })
}

fn rename_of(alloc: Global, words: &mut Words<'_>) -> Result<OpKind, AllocError> {
    let create = words.small();
    let path = path_in(alloc, words)?;
    Ok(OpKind::Rename { create, path })
}

// An operation that owns nothing.
fn operation_of(kind: &str, words: &mut Words<'_>) -> Result<OpKind, Fault> {
    let create = words.small();
    match kind {
        "read" => Ok(OpKind::Read {
            create,
            at: words.number(),
            length: words.small(),
        }),
        "lock" => Ok(OpKind::Lock {
            create,
            at: words.number(),
            length: words.number(),
            exclusive: words.says("exclusive"),
        }),
        "unlock" => Ok(OpKind::Unlock {
            create,
            at: words.number(),
            length: words.number(),
        }),
        "end" => Ok(OpKind::SetEnd {
            create,
            length: words.number(),
        }),
        "time" => Ok(OpKind::SetTime {
            create,
            time: words.number(),
        }),
        "remove" => Ok(OpKind::Remove { create }),
        "flush" => Ok(OpKind::Flush { create }),
        "stat" => Ok(OpKind::Stat { create }),
        "list" => Ok(OpKind::List { create }),
        "close" => Ok(OpKind::Close { create }),
        _ => Err(Fault::Other("an unknown operation")),
    }
}
