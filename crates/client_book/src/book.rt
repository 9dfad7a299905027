//! The client in its turns.
ghost use Rattle.std.specs.Prelude.{◌≡◌, OnOk, IfOk};
ghost use Rattle.client_events.specs.event_calls.Events.{ClientEventTells};
ghost use Rattle.client_events.specs.played_client.Holding.{PlayedSteps};
ghost use Rattle.client_book.specs.Steps.{ClientSteps, IsNew};

use crate::turn::{Told, Turn};
use client_events::{Act, Event, Played};
use spec_crypto::{Keys, Signer};
use std::alloc::{AllocError, Global};

/// A client whose channels take turns, and what they share of its session.
#[derive(Drop)]
pub struct ClientBook {
    pub alloc: Global,
    pub client: Played,
    /// The random half of its CreateGuids.
    pub salt: u64,
    /// The last session that it accepted, or 0, and that one's keys.
    pub accepted: u64,
    pub keys: Keys,
    /// The highest number that a channel of that session was given.
    pub numbers: u16,
    /// How many connects failed in a row.
    pub failed: u32,
    /// Whether the first dialog of channel 0 has ended.
    pub opened: bool,
    /// Whether all was given up.
    pub finished: bool,
    /// Whether memory ran out.
    pub stopped: bool,
}

/// Of no session.
fn no_keys() -> Keys
    ensures { result.cipher ≡ 0 }
{
    Keys {
        signing: Signer {
            key: [0; 16],
            algorithm: 1,
        },
        to_server: [0; 32],
        to_client: [0; 32],
        cipher: 0,
        session: 0,
    }
}

/// An event happens to the client. One that can't come counts as memory that ran out.
pub(crate) fn happen(client: &mut Played, alloc: Global, event: Event) -> Result<Act, AllocError>
    ensures shown { OnOk result (PlayedSteps client.old client.new event) }
    ensures told { IfOk result (ClientEventTells client.old event) }
{
    match client.step(event, alloc) {
        Ok(act) => Ok(act),
        Err(_) => Err(AllocError),
    }
}

impl ClientBook {
    /// A client without operations, in no session. `salt` is the random half of its CreateGuids.
    pub fn new(alloc: Global, salt: u64) -> ClientBook
        ensures { IsNew salt result }
    {
        ClientBook {
            alloc,
            client: Played::new(alloc),
            salt,
            accepted: 0,
            keys: no_keys(),
            numbers: 0,
            failed: 0,
            opened: false,
            finished: false,
            stopped: false,
        }
    }

    /// A turn. Behind one that found no memory each is told to stop.
    pub fn step(&mut self, turn: Turn) -> Told
        ensures { ClientSteps self.old turn result self.new }
    {
        let stopped = self.stopped;
        if stopped {
            return self.stop();
        }
        self.turn(turn)
    }
}
