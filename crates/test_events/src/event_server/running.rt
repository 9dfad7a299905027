use base_outside::Disk;
use conn_core::{Conn, Ended, Taken, take_frame};
use journal::JournalError;
use server_checks::{Config, EventError};
use server_core::{Book, Server};
use std::alloc::{AllocError, Global};
use store_files::StoredFile;
use wait_locks::{LaterList, OwnAnswer, WaitEvent};

/// What a program asks of a server. Its functions take any type that has this, so that their check knows no field of a server: a
/// function that owns a server drops it at each of its ends, and joins what is left of it.
pub trait Runs: Drop {
    /// The disk on which its journal stands.
    type D: Disk + Drop;

    /// Begins on what a disk holds, as `Server::recover` does; the errors are its.
    fn begin(alloc: Global, disk: Self::D, config: Config) -> Result<Self, JournalError>;

    /// The answer to one event at this moment, a FILETIME, as `Server::event` gives it, or `WaitServer::event`, or, where it is to be
    /// answered at once, `WaitServer::event_at_once`; the errors are its.
    fn event(
        &mut self,
        now: u64,
        at_once: bool,
        event: WaitEvent<'_>,
    ) -> Result<LaterList, EventError>;

    /// Whether a waiter may stand that no range holds up any more.
    fn starved(&self) -> bool;

    /// What a frame comes to on a connection at this moment, as `take_frame` gives it, where the server takes any.
    fn frame(
        &mut self,
        conn: &mut Conn,
        now: u64,
        fresh: [u8; 8],
        frame: &[u8],
    ) -> Option<Result<Taken, Ended>>;

    /// All files in byte order of their paths, as `Server::files` gives them.
    fn files(&self) -> Result<Vec<StoredFile>, AllocError>;

    /// Hands back the disk.
    fn stop(self) -> Self::D;
}

/// A server that runs.
#[derive(Drop)]
pub struct Running<D: Disk> {
    book: Book<D>,
}

impl<D: Disk + Drop> Runs for Running<D> {
    type D = D;

    fn begin(alloc: Global, disk: D, config: Config) -> Result<Running<D>, JournalError> {
        match Server::recover(alloc, disk, config) {
            Ok(server) => Ok(Running {
                book: Book { alloc, server },
            }),
            Err(refused) => Err(refused.cause),
        }
    }

    fn event(
        &mut self,
        now: u64,
        _at_once: bool,
        event: WaitEvent<'_>,
    ) -> Result<LaterList, EventError> {
        let finals = Vec::new(self.book.alloc);
        match event {
            WaitEvent::Serves { event } => match self.book.server.event(now, event) {
                Ok(answer) => Ok(LaterList {
                    own: Some(OwnAnswer {
                        connection: 0,
                        message: 0,
                        async_id: 0,
                        answer,
                    }),
                    finals,
                }),
                Err(error) => Err(error),
            },
            WaitEvent::Cancels { .. } => Ok(LaterList { own: None, finals }),
        }
    }

    fn starved(&self) -> bool {
        false
    }

    fn frame(
        &mut self,
        conn: &mut Conn,
        now: u64,
        fresh: [u8; 8],
        frame: &[u8],
    ) -> Option<Result<Taken, Ended>> {
        Some(take_frame(conn, &mut self.book, now, fresh, frame))
    }

    fn files(&self) -> Result<Vec<StoredFile>, AllocError> {
        self.book.server.files()
    }

    fn stop(self) -> D {
        let Running { book } = self;
        let Book { server, .. } = book;
        server.stop()
    }
}
