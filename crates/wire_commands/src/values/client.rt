use crate::values::command::{Durable, Setting};
use spec_exchange::values::Element;
use wire_bytes::Text;

/// A command as a client sends it (MS-SMB2 3.2.4): of the model's `Command` those that a client sends. A file is named by its
/// open's id, of which each below 2^128 is another FileId, because a server may choose any 16 bytes. Only what a WRITE
/// carries is borrowed, of whoever sends it.
#[derive(Drop)]
pub enum ClientCommand<'a> {
    /// No command that is sent.
    Nothing,
    TreeConnect {
        share: Text,
    },
    Create(ClientCreate),
    /// `query` asks for the file's times and lengths.
    Close {
        file: u128,
        query: bool,
    },
    Flush {
        file: u128,
    },
    Read {
        file: u128,
        at: u64,
        size: u32,
        minimum: u32,
        channel: u32,
    },
    Write {
        file: u128,
        at: u64,
        bytes: &'a [u8],
        channel: u32,
    },
    /// `index` and `number` are the parts of a LockSequence.
    Lock {
        file: u128,
        index: u32,
        number: u8,
        elements: Vec<Element>,
    },
    ListDirectory {
        file: u128,
        class: u8,
        restart: bool,
        single: bool,
        pattern: Text,
        room: u32,
    },
    QueryFile {
        file: u128,
        class: u8,
        room: u32,
    },
    SetInfo {
        file: u128,
        setting: Setting,
    },
}

/// CREATE as a client asks it (MS-SMB2 2.2.13), with its create contexts.
#[derive(Drop)]
pub struct ClientCreate {
    pub path: Text,
    pub access: u32,
    pub share: u32,
    pub attributes: u32,
    pub disposition: u32,
    pub options: u32,
    pub durable: Option<Durable>,
    pub reconnect: Option<ClientReconnect>,
    /// It asks for the maximal access (MS-SMB2 2.2.13.2.5).
    pub maximal: bool,
    /// It asks for the file's number on the disk (MS-SMB2 2.2.13.2.9).
    pub disk_id: bool,
}

/// Asks to attach a standing open (MS-SMB2 2.2.13.2.12), by its id as a client keeps it.
#[derive(Clone, Copy, Drop)]
pub struct ClientReconnect {
    pub file: u128,
    pub guid: u128,
}
