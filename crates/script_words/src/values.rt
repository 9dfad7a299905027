// What a line may say.
ghost use Rattle.std.specs.Prelude.{◌≡◌};

use crate::user_list::UserList;
use client_values::OpKind;
use std::alloc::{AllocError, AllocFailed};
use wire_bytes::{Bytes, Text};

/// What reads the lines.
#[derive(Clone, Copy, PartialEq, Eq, Debug)]
pub enum Command {
    /// Settings, operations and events.
    Drill,
    /// Settings alone, with any number of users.
    Serve,
    /// Settings and operations.
    Run,
}

/// Why a line is refused.
#[derive(Clone, Copy, PartialEq, Eq, Debug, Drop)]
pub enum Code {
    /// It is not in the grammar.
    BadLine,
    /// It passes a limit.
    TooLong,
    /// It names a connection whose end is not open, or a channel that is not ready.
    NoChannel(u32),
    /// It names a connection on which no message waits there.
    NothingThere(u32),
    /// It opens a connection of which an end is open.
    InUse(u32),
}

/// What the client offers first.
#[derive(Clone, Copy, PartialEq, Eq, Debug)]
pub enum Cipher {
    /// Signing alone.
    None,
    Ccm,
    Gcm,
    Ccm256,
    Gcm256,
}

/// What the client offers first to sign with.
#[derive(Clone, Copy, PartialEq, Eq, Debug)]
pub enum Signing {
    Cmac,
    Gmac,
}

/// One who may log on. The name is ASCII; either has 1 to 256 characters.
#[derive(Drop, Debug)]
pub struct User {
    pub name: Text,
    pub password: Text,
}

#[derive(Drop, Debug)]
pub enum Setting {
    Cipher(Cipher),
    Signing(Signing),
    /// How many bytes all files may have.
    Room(u64),
    User(User),
    Share(Text),
    /// How many channels the client makes.
    Channels(u32),
}

/// What happens on the network, or to the server. Connections are numbered from 0 to 255.
#[derive(Drop, Debug)]
pub enum ScriptEvent {
    Open(u32),
    Push(u32),
    Serve(u32),
    Take(u32),
    Cut(u32),
    Drop(u32),
    Restart,
    /// The server crashes in the event of a connection's front message, whose records stay where `kept` says so.
    Crash {
        connection: u32,
        kept: bool,
    },
    /// The front message on its way up to the server, or down to the client, is replaced.
    Forge {
        connection: u32,
        up: bool,
        bytes: Bytes,
    },
    /// The front message's bytes from a place on are changed, by exclusive or.
    Flip {
        connection: u32,
        up: bool,
        at: u32,
        mask: Bytes,
    },
    /// So many milliseconds pass.
    Wait(u32),
    /// It is opened, then served and taken until its channel is ready.
    Link(u32),
    /// All is served and taken until every operation is settled.
    Settle,
}

/// What a line says.
#[derive(Drop)]
pub enum Statement {
    Setting(Setting),
    /// The client takes an operation.
    Operation(OpKind),
    Event(ScriptEvent),
}

/// The settings that earlier lines gave, and whether one of these lines was no setting.
#[derive(Drop)]
pub struct Given {
    pub cipher: Option<Cipher>,
    pub signing: Option<Signing>,
    pub room: Option<u64>,
    pub users: UserList,
    pub share: Option<Text>,
    pub channels: Option<u32>,
    pub begun: bool,
}

/// Why a line was not read.
#[derive(Drop, Debug)]
pub enum Fault<E> {
    Memory,
    Refused(E),
}

impl<E> From<AllocError> for Fault<E> {
    ghost use Rattle.script_words.specs.declared.values.Fault.TheVariants.{Memory};

    ghost from_gives = { λ _ fault. fault ≡ Memory };

    fn from(_: AllocError) -> Fault<E> {
        Fault::Memory
    }
}

impl<T: Drop, E> From<AllocFailed<T>> for Fault<E> {
    ghost use Rattle.script_words.specs.declared.values.Fault.TheVariants.{Memory};

    ghost from_gives = { λ _ fault. fault ≡ Memory };

    fn from(_: AllocFailed<T>) -> Fault<E> {
        Fault::Memory
    }
}
