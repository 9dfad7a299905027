ghost use Rattle.spec_exchange.specs.Fold.{nothing_yet};
ghost use Rattle.store_opens.specs.open_table.Shown.{ShowsOpens};

use crate::open_index::{Deadlines, FileOpens, SessionOpens};
use crate::open_table::row::Row;
use std::alloc::Global;
use std::collections::{HashMap, HashSet};

/// The opens that stand.
#[derive(Drop)]
pub struct Opens {
    pub(crate) alloc: Global,
    /// Ids are this times 2^32 and a count from 1.
    pub(crate) epoch: u32,
    pub(crate) given: u32,
    // Hash maps have a reserve: after it these inserts can't fail, so they may follow the journal.
    pub(crate) rows: HashMap<u64, Row>,
    // Indexes beside the rows, so that no CREATE, lock or session's end looks through all opens.
    /// By ClientGuid and CreateGuid.
    pub(crate) guids: HashMap<(u128, u128), u64>,
    pub(crate) files: HashMap<u64, FileOpens>,
    pub(crate) sessions: HashMap<u64, SessionOpens>,
    /// By ClientGuid and CreateGuid: an open of it expired.
    pub(crate) expired: HashSet<(u128, u128)>,
    pub(crate) expired_count: u32,
    pub(crate) deadlines: Deadlines,
    // A list of its own, so that no later event looks through all opens for one without a deadline.
    /// Opens that recovery found, before their first event.
    pub(crate) undated: Vec<u64>,
}

impl Opens {
    /// No opens, before the first epoch. It takes no memory.
    pub fn new(alloc: Global) -> Opens
        ensures { ShowsOpens result nothing_yet }
    {
        let rows = HashMap::new(alloc);
        let guids = HashMap::new(alloc);
        let files = HashMap::new(alloc);
        let sessions = HashMap::new(alloc);
        let expired = HashSet::new(alloc);
        let deadlines = Deadlines::new(alloc);
        let undated = Vec::new(alloc);
        Opens {
            alloc,
            epoch: 0,
            given: 0,
            rows,
            guids,
            files,
            sessions,
            expired,
            expired_count: 0,
            deadlines,
            undated,
        }
    }
}
