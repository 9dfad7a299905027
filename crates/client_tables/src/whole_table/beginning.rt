// A client begins.
ghost use Rattle.std.specs.Prelude.{◌≡◌, []};
ghost use Rattle.spec_exchange.specs.Network.{Settings, start};
ghost use Rattle.client_tables.specs.whole_table.Shown.{TableFits, ShowsTable};

use crate::whole_table::parts::Table;
use base_lists::{Members, Prices, Watchers};
use client_rows::Session;
use std::alloc::Global;

impl Table {
    /// No operations, and no session; there is no row either. It takes no memory.
    pub fn new(alloc: Global) -> Table
        ensures fits { TableFits result }
        ensures rows { result.rows.items ≡ [] }
        ensures shown { (settings : Settings) → ShowsTable result (start settings).client }
    {
        Table {
            session: Session::new(),
            rows: Vec::new(alloc),
            holders: Vec::new(alloc),
            prices: Prices::new(alloc),
            watchers: Watchers::new(alloc),
            ops: Vec::new(alloc),
            settled: Vec::new(alloc),
            order: Vec::new(alloc),
            dialogs: Vec::new(alloc),
            out: Members::new(alloc),
            lowest: 1,
        }
    }
}
