use client_ends::{Dialog, Line};
use conn_core::Conn;
use std::alloc::Global;
use std::collections::VecDeque;

/// The client's end of a connection.
#[derive(Drop)]
pub enum ClientSide {
    Closed,
    /// Its dialog goes on.
    Talks(Dialog),
    /// Its channel is ready.
    Ready(Line),
}

/// A frame on its way to the server, and whose it is, as a line counts tokens.
#[derive(Drop)]
pub struct Up {
    // Beside the frame, which may be sealed: by it is noted whose message the server took.
    pub token: u64,
    pub bytes: Vec<u8>,
}

/// A frame on its way to the client, and the place of the message that it answers among those that the server took.
#[derive(Drop)]
pub struct Down {
    pub place: u64,
    pub bytes: Vec<u8>,
}

/// A connection.
#[derive(Drop)]
pub struct Channel {
    pub client: ClientSide,
    pub server: Option<Conn>,
    pub up: VecDeque<Up>,
    pub down: VecDeque<Down>,
}

impl Channel {
    ghost use Rattle.std.specs.Prelude.{◌≡◌, None, [], is_some};
    ghost use Rattle.world_ends.specs.Tests.{is_open, is_ready};
    ghost use Rattle.world_ends.specs.declared.sides.ClientSide.TheVariants as sides;

    /// One of which both ends are closed. It takes no memory.
    pub fn new(alloc: Global) -> Channel
        ensures ends { (result.client ≡ sides.Closed) × (result.server ≡ None) }
        ensures lists { (result.up.items ≡ []) × (result.down.items ≡ []) }
    {
        Channel {
            client: ClientSide::Closed,
            server: None,
            up: VecDeque::new(alloc),
            down: VecDeque::new(alloc),
        }
    }

    pub fn is_client_open(&self) -> bool
        ensures { result ≡ is_open self.now.client }
    {
        match self.client {
            ClientSide::Closed => false,
            ClientSide::Talks(_) => true,
            ClientSide::Ready(_) => true,
        }
    }

    pub fn is_ready(&self) -> bool
        ensures { result ≡ is_ready self.now.client }
    {
        match self.client {
            ClientSide::Closed => false,
            ClientSide::Talks(_) => false,
            ClientSide::Ready(_) => true,
        }
    }

    pub fn is_server_open(&self) -> bool
        ensures { result ≡ is_some self.now.server }
    {
        self.server.is_some()
    }

    /// The client closes its end: what was on its way to it is lost.
    pub fn close_client(&mut self)
        ensures ends { (self.new.client ≡ sides.Closed) × (self.new.server ≡ self.old.server) }
        ensures lists { (self.new.down.items ≡ []) × (self.new.up.items ≡ self.old.up.items) }
    {
        self.client = ClientSide::Closed;
        self.down.clear();
    }

    /// The server closes its end: what was on its way to it is lost.
    pub fn close_server(&mut self)
        ensures ends { (self.new.server ≡ None) × (self.new.client ≡ self.old.client) }
        ensures lists { (self.new.up.items ≡ []) × (self.new.down.items ≡ self.old.down.items) }
    {
        self.server = None;
        self.up.clear();
    }
}
