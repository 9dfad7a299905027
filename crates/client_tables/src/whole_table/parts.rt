// What a client keeps of its operations.
use base_lists::{Members, Prices, Watchers};
use client_rows::{Row, Session};
use client_values::{OpKind, Outcome, RefusedDialog};

/// A client's operations and its session. Its opens are not among them.
#[derive(Drop)]
pub struct Table {
    pub session: Session,
    // By number, because a request's token is made of it: a response finds its operation in one step.
    /// Operations, at the index that is their number; row 0 is none.
    pub rows: Vec<Row>,
    pub holders: Vec<u32>,
    // In blocks with a bound for each, because in a plain list a million searches would take hours.
    pub prices: Prices,
    // Lists in one table, three numbers an operation, so that settling takes no memory.
    pub watchers: Watchers,
    /// What each operation asks, and how it settled; of one that is unsettled the second tells nothing.
    pub ops: Vec<OpKind>,
    pub settled: Vec<Outcome>,
    /// Those that a reply settled, in the order of the replies.
    pub order: Vec<u32>,
    pub dialogs: Vec<RefusedDialog>,
    // So that a cut goes over these alone and not over all rows.
    /// Those of which something is outstanding.
    pub out: Members,
    /// All below it are settled.
    pub lowest: usize,
}
