use crate::memory_server::Book;
use crate::notes::Notes;
use crate::sides::Channel;
use base_outside::MemDisk;
use client_ends::ClientConfig;
use client_events::Played;
use spec_crypto::Keys;
use std::alloc::Global;

/// What is known of an operation's places among the messages that the server took: of its first message that acted, and of the one
/// whose reply settled it. Of a create that acted also the place behind it.
#[derive(Clone, Copy, Debug)]
pub struct Marks {
    pub first: Option<u64>,
    pub by: Option<u64>,
    pub birth: u64,
}

// In place of a log of all messages: one walk over these tells the order of each open.
/// The messages that the server took.
#[derive(Drop)]
pub struct Places {
    /// By place, the operation whose message it was; 0 is none.
    pub served: Vec<u32>,
    /// By operation, from 0 on, which is none.
    pub marks: Vec<Marks>,
}

/// A client and a server over a disk in memory, with 256 connections between them.
#[derive(Drop)]
pub struct World {
    pub alloc: Global,
    pub seed: [u8; 32],
    /// How many draws there were.
    pub draws: u64,
    pub moment: u64,
    pub settings: ClientConfig,
    /// The server's ServerGuid.
    pub guid: [u8; 16],
    /// The random half of the client's CreateGuids.
    pub salt: u64,
    pub client: Played,
    /// The last session that the client accepted, or 0.
    pub accepted: u64,
    /// The connection whose dialog makes a session.
    pub making: Option<u32>,
    /// The client's session: its keys, whether it seals, and how many channels were accepted for it.
    pub keys: Keys,
    pub encrypts: bool,
    pub numbers: u16,
    /// There is none behind a restart that found no memory.
    pub book: Option<Book<MemDisk>>,
    /// By number.
    pub channels: Vec<Channel>,
    pub places: Places,
    pub notes: Notes,
}
