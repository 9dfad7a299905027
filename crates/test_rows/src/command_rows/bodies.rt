// Bodies of replies, by the words of a row. A file has the number 6, 5,000 bytes, the times 1 to 4 and the attribute ARCHIVE.
use crate::words::{Fault, Words, kept};
use std::alloc::{AllocError, Global};
use wire_bytes::{Bytes, Text};
use wire_commands::{Address, Basic, Body, CreateReply, Info, Named};

const INFO: Info = Info {
    file: 6,
    is_directory: false,
    size: 5000,
    is_delete_pending: false,
    times: Basic {
        created: 1,
        accessed: 2,
        written: 3,
        changed: 4,
        attributes: 0x20,
    },
};

/// The body that the next words tell.
pub fn body_in(alloc: Global, words: &mut Words<'_>) -> Result<Body, Fault> {
    match words.next() {
        "content" => content_in(alloc, words),
        "file" => kept(file_in(alloc, words)),
        "listing" => listing_in(alloc, words),
        kind => plain_in(kind, words),
    }
}

// A body that owns nothing.
fn plain_in(kind: &str, words: &mut Words<'_>) -> Result<Body, Fault> {
    match kind {
        "empty" => Ok(Body::Empty),
        // A CREATE that made open 9, with all that a create context may tell.
        "created" => Ok(Body::Created(CreateReply {
            id: 9,
            action: 2,
            info: INFO,
            timeout: Some(60_000),
            maximal: true,
            disk_id: true,
        })),
        "closed" => Ok(Body::Closed { info: INFO }),
        "count" => Ok(Body::Count {
            count: words.small(),
        }),
        "interfaces" => {
            let ip = words.small();
            let port = words.short();
            let address = Address { ip, port };
            Ok(Body::Interfaces { address })
        }
        "object" => Ok(Body::ObjectId {
            file: words.number(),
        }),
        "volume" => Ok(Body::VolumeInfo {
            class: words.tiny(),
            room: words.number(),
            used: words.number(),
        }),
        "connected" => Ok(Body::Connected {
            kind: words.tiny(),
            capabilities: words.small(),
            access: words.small(),
        }),
        "setup" => Ok(Body::SetUp {
            sealed: true,
            channel: 1,
        }),
        _ => Err(Fault::Other("an unknown body")),
    }
}

fn content_in(alloc: Global, words: &mut Words<'_>) -> Result<Body, Fault> {
    let bytes = words.bytes(alloc)?;
    Ok(Body::Content {
        bytes: Bytes::from_vec(bytes),
    })
}

// `CLASS`, of `d\a.txt`.
fn file_in(alloc: Global, words: &mut Words<'_>) -> Result<Body, AllocError> {
    let path = Text::from_str(alloc, "d\\a.txt")?;
    Ok(Body::FileInfo {
        class: words.tiny(),
        path,
        info: INFO,
        access: 0x12_019f,
        options: 0x20,
        position: 0x1_0203_0405,
    })
}

// `CLASS NAME ..`.
fn listing_in(alloc: Global, words: &mut Words<'_>) -> Result<Body, Fault> {
    let class = words.tiny();
    let mut entries = Vec::new(alloc);
    for name in words.rest().split(" ") {
        let name = Text::from_str(alloc, name)?;
        entries.push(Named { name, info: INFO })?;
    }
    Ok(Body::Listing { class, entries })
}
