// A script that is played, and what it asks of a client. Its functions take any type that has it, so that their check knows no field of a
// client: each function that owns one, or changes one in one of two ways, would join all that its tables may be then.
use crate::words::Fault;
use client_events::{Act, Event, Played};
use client_steps::Head;
use client_tables::Table;
use std::alloc::{AllocError, Global};
use wire_commands::ClientCommand;

const REFUSED: Fault = Fault::Other("no memory, or no such event");

/// A client that is played; each call is that of `Played`.
pub trait Plays: Drop {
    fn begun(alloc: Global) -> Self;

    fn table(&self) -> &Table;

    fn at_event(&mut self, event: Event, alloc: Global) -> Result<Act, Fault>;

    fn head_at(&self, index: usize, asking: bool) -> Result<Head, Fault>;

    fn request_at(
        &self,
        alloc: Global,
        index: usize,
        asking: bool,
        salt: u64,
    ) -> Result<ClientCommand<'_>, Fault>;
}

impl Plays for Played {
    fn begun(alloc: Global) -> Played {
        Played::new(alloc)
    }

    fn table(&self) -> &Table {
        &self.client().table
    }

    fn at_event(&mut self, event: Event, alloc: Global) -> Result<Act, Fault> {
        match self.step(event, alloc) {
            Ok(act) => Ok(act),
            Err(_) => Err(REFUSED),
        }
    }

    fn head_at(&self, index: usize, asking: bool) -> Result<Head, Fault> {
        match self.head(index, asking) {
            Ok(head) => Ok(head),
            Err(_) => Err(REFUSED),
        }
    }

    fn request_at(
        &self,
        alloc: Global,
        index: usize,
        asking: bool,
        salt: u64,
    ) -> Result<ClientCommand<'_>, Fault> {
        match self.request(alloc, index, asking, salt) {
            Ok(command) => Ok(command),
            Err(_) => Err(REFUSED),
        }
    }
}

/// A client, and by place from 0, of which operations it was told how they settled.
#[derive(Drop)]
pub struct Script<P: Plays> {
    pub played: P,
    pub told: Vec<bool>,
}

impl<P: Plays> Script<P> {
    pub fn new(alloc: Global) -> Script<P> {
        Script {
            played: P::begun(alloc),
            told: Vec::new(alloc),
        }
    }

    /// Whether an operation settled since the last look at it. Places are looked at in turn.
    pub fn is_news(&mut self, place: usize, settled: bool) -> Result<bool, AllocError> {
        if let Some(told) = self.told.get_mut(place) {
            let is_news = settled && !*told;
            *told = settled;
            return Ok(is_news);
        }
        self.told.push(settled)?;
        Ok(settled)
    }
}
