use crypto_sessions::Acceptor;
use spec_crypto::Keys;
use spec_exchange::values::Tree;
use wire_bytes::{Bytes, Text};

/// One live session.
#[derive(Drop, Debug)]
pub struct SessionRow {
    pub user: Text,
    /// The ClientGuid.
    pub client: u128,
    /// What was chosen on its first connection; 0 for no cipher.
    pub cipher: u16,
    pub signing: u16,
    /// How many channel numbers were drawn.
    pub drawn: u32,
    pub trees: Vec<Tree>,
    pub next_tree: u64,
    pub keys: Keys,
    /// Each connection on which it has a channel, and perhaps some on which it has none.
    pub channels: Vec<u32>,
}

/// What a logon in the making is for.
#[derive(Clone, Copy, Debug, PartialEq, Eq)]
pub enum Purpose {
    /// A session of this new id.
    New(u64),
    /// A further channel of this session.
    Binding(u64),
}

/// A logon in the making: the list of mechanisms of its first token, empty where that was a type 1 alone, and the challenge.
#[derive(Drop, Debug)]
pub struct InMaking {
    pub purpose: Purpose,
    pub list: Bytes,
    pub acceptor: Acceptor,
}

/// One connection.
#[derive(Drop, Debug)]
pub struct Link {
    /// The live session that has a channel there.
    pub session: Option<u64>,
    pub making: Option<InMaking>,
}
