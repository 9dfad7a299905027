//! The bells by which turns are called. They change nothing that a contract speaks of: a turn is known by the word that is served.
use std::alloc::{AllocError, Global};
use std::sync::Wait;
use std::sync::atomic::{AtomicU64, Ordering};
use std::{hint, thread};

/// How many bells there are. Tickets that lie so far apart share one.
const BELLS: u64 = 64;

/// A sleep looks at the low 32 bits of a count.
const LOW: u64 = 1 << 32;

/// How often a thread looks before it sleeps.
const LOOKS: u64 = 100;

/// A count of rings for each bell.
#[derive(Drop)]
pub struct Bells {
    rings: Vec<AtomicU64>,
}

/// Bells that were not rung.
pub(crate) fn hung(alloc: Global) -> Result<Bells, AllocError> {
    let mut rings = Vec::new(alloc);
    for _ in 0..BELLS {
        rings.push(AtomicU64::new(0))?;
    }
    Ok(Bells { rings })
}

/// Counts a look, as far as it matters.
pub(crate) fn next_look(looks: u64) -> u64 {
    if looks < LOOKS { looks + 1 } else { looks }
}

impl Bells {
    fn of(&self, ticket: u64) -> Option<&AtomicU64> {
        self.rings.get((ticket % BELLS) as usize)
    }

    /// How often a ticket's bell was rung.
    pub(crate) fn heard(&self, ticket: u64) -> u64 {
        match self.of(ticket) {
            Some(rings) => rings.load(Ordering::SeqCst),
            None => 0,
        }
    }

    /// Rests between two looks: a while on the processor, and then asleep until the bell was rung since.
    pub(crate) fn rest<W: Wait>(&self, rt: &W, ticket: u64, heard: u64, looks: u64) {
        if looks < LOOKS {
            hint::spin_loop();
            return;
        }
        match self.of(ticket) {
            Some(rings) => rings.park(rt, (heard % LOW) as u32),
            None => thread::yield_now(),
        }
    }

    /// Wakes whoever sleeps for the ticket.
    pub(crate) fn ring(&self, ticket: u64) {
        if let Some(rings) = self.of(ticket) {
            rings.fetch_add(1, Ordering::SeqCst);
            rings.wake_all();
        }
    }
}
