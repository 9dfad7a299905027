use spec_exchange::values::Basic;
use wire_bytes::{Bytes, Text};

/// A status with the ids that the response's header names.
#[derive(Drop, Debug)]
pub struct Reply {
    pub status: u32,
    pub session_id: u64,
    pub tree_id: u32,
    pub body: Body,
}

/// What a success tells (MS-SMB2 2.2): the model's `Body`.
#[derive(Drop, Debug)]
pub enum Body {
    Empty,
    Created(CreateReply),
    Closed {
        info: Info,
    },
    /// What was read.
    Content {
        bytes: Bytes,
    },
    /// How many bytes were written.
    Count {
        count: u32,
    },
    Interfaces {
        address: Address,
    },
    ObjectId {
        file: u64,
    },
    Listing {
        class: u8,
        entries: Vec<Named>,
    },
    /// `access`, `options` and `position` are the open's.
    FileInfo {
        class: u8,
        path: Text,
        info: Info,
        access: u32,
        options: u32,
        position: u64,
    },
    /// `room` and `used` count bytes.
    VolumeInfo {
        class: u8,
        room: u64,
        used: u64,
    },
    /// `channel` is the number of the session's channel, which isn't on the wire.
    SetUp {
        sealed: bool,
        channel: u32,
    },
    Connected {
        kind: u8,
        capabilities: u32,
        access: u32,
    },
}

/// What is known of a file or directory beside its name and bytes.
#[derive(Clone, Copy, Debug, PartialEq, Eq, Drop)]
pub struct Info {
    pub file: u64,
    pub is_directory: bool,
    pub size: u64,
    pub is_delete_pending: bool,
    pub times: Basic,
}

/// The success of a CREATE (MS-SMB2 2.2.14).
#[derive(Clone, Copy, Debug, PartialEq, Eq, Drop)]
pub struct CreateReply {
    /// The open's id as a client keeps it; a server of this project gives ids below 2^64.
    pub id: u128,
    pub action: u32,
    pub info: Info,
    /// Told where the open is persistent and the request asked, in milliseconds.
    pub timeout: Option<u32>,
    pub maximal: bool,
    pub disk_id: bool,
}

/// An entry of a listing.
#[derive(Drop, Debug)]
pub struct Named {
    pub name: Text,
    pub info: Info,
}

/// Where the server can be reached, by IPv4.
#[derive(Clone, Copy, Debug, PartialEq, Eq, Drop)]
pub struct Address {
    pub ip: u32,
    pub port: u16,
}
