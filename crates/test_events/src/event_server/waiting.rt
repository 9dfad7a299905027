use crate::event_server::Runs;
use base_outside::Disk;
use conn_core::{Conn, Ended, Taken};
use journal::JournalError;
use server_checks::{Config, EventError};
use server_core::Server;
use std::alloc::{AllocError, Global};
use store_files::StoredFile;
use wait_locks::{LaterList, WaitEvent, WaitServer};

/// A server that runs behind its waiters. It takes no frames.
#[derive(Drop)]
pub struct Waiting<D: Disk> {
    server: WaitServer<D>,
}

impl<D: Disk + Drop> Runs for Waiting<D> {
    type D = D;

    fn begin(alloc: Global, disk: D, config: Config) -> Result<Waiting<D>, JournalError> {
        match Server::recover(alloc, disk, config) {
            Ok(server) => Ok(Waiting {
                server: WaitServer::new(alloc, server),
            }),
            Err(refused) => Err(refused.cause),
        }
    }

    fn event(
        &mut self,
        now: u64,
        at_once: bool,
        event: WaitEvent<'_>,
    ) -> Result<LaterList, EventError> {
        if at_once {
            return self.server.event_at_once(now, event);
        }
        self.server.event(now, event)
    }

    fn starved(&self) -> bool {
        self.server.starved()
    }

    fn frame(
        &mut self,
        _conn: &mut Conn,
        _now: u64,
        _fresh: [u8; 8],
        _frame: &[u8],
    ) -> Option<Result<Taken, Ended>> {
        None
    }

    fn files(&self) -> Result<Vec<StoredFile>, AllocError> {
        self.server.server().files()
    }

    fn stop(self) -> D {
        let Waiting { server } = self;
        server.stop()
    }
}
