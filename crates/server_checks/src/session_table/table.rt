ghost use Rattle.std.specs.Prelude.{◌≡◌, ℕ, Option};
ghost use Rattle.spec_exchange.specs.State.{Server};
ghost use Rattle.spec_exchange.specs.Fold.{nothing_yet};
ghost use Rattle.server_checks.specs.session_table.Shown.{ShowsSessions};
ghost use Rattle.server_checks.specs.session_table.Changes.{sessions_epoch};
ghost use Rattle.server_checks.specs.session_table.Logons.{LogonsShown, LogonsStay};
ghost use Rattle.spec_crypto.specs.declared.sessions.material.Keys.{Keys};
ghost use Rattle.spec_crypto.specs.tokens.Tokens.{Pending};

use crate::session_table::row::{Link, SessionRow};
use std::alloc::Global;
use std::collections::HashMap;

/// The sessions and the connections.
#[derive(Drop)]
pub struct Sessions {
    pub(crate) alloc: Global,
    pub(crate) epoch: u32,
    pub(crate) given: u32,
    pub(crate) rows: HashMap<u64, SessionRow>,
    /// Connections in the order in which they came.
    pub(crate) order: Vec<u32>,
    pub(crate) links: HashMap<u32, Link>,
}

impl Sessions {
    /// No sessions and no connections, before the first epoch. It takes no memory.
    pub fn new(alloc: Global) -> Sessions
        ensures shows { ShowsSessions result nothing_yet }
        ensures logons { (keys : ℕ → Keys) (pending : ℕ → Option Pending) → LogonsShown result keys pending }
    {
        Sessions {
            alloc,
            epoch: 0,
            given: 0,
            rows: HashMap::new(alloc),
            order: Vec::new(alloc),
            links: HashMap::new(alloc),
        }
    }

    /// The ids of sessions count from 1 in a new epoch.
    pub fn begin_epoch(&mut self, epoch: u32)
        ensures shows { (s : Server) → ShowsSessions self.old s → ShowsSessions self.new (sessions_epoch s epoch) }
        ensures logons { LogonsStay self.old self.new }
    {
        self.epoch = epoch;
        self.given = 0;
    }
}
