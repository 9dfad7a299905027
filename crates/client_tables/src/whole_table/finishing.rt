// All is settled, or is to be.
ghost use Rattle.std.specs.Prelude.{◌≡◌, not, length};
ghost use Rattle.spec_exchange.specs.Client.{Client, finish};
ghost use Rattle.spec_exchange.specs.ClientStep.{some_unsettled};
ghost use Rattle.client_values.specs.outcomes.Meaning.{why_of};
ghost use Rattle.client_tables.specs.settling.Shown.{AreSettledBelow, GoesSettled};
ghost use Rattle.client_tables.specs.whole_table.Shown.{TableFits, ShowsTable};

use crate::settling::{first_left, give_up_from};
use crate::whole_table::parts::Table;
use client_values::Why;

impl Table {
    /// Whether every operation is settled. It goes on from where it looked last.
    pub fn is_settled(&mut self) -> bool
        requires fits { TableFits self.old }
        ensures fits { TableFits self.new }
        ensures rows { self.new.rows ≡ self.old.rows }
        ensures shown { (c : Client) → ShowsTable self.old c → ShowsTable self.new c }
        ensures told { (c : Client) → ShowsTable self.old c → result ≡ not (some_unsettled c c.taken) }
    {
        if self.lowest >= self.rows.len() {
            return true;
        }
        self.lowest = first_left(&self.rows, self.lowest);
        self.lowest >= self.rows.len()
    }

    /// No session can be had: all that was taken and is unsettled is given up.
    pub fn finish(&mut self, why: Why)
        requires fits { TableFits self.old }
        ensures fits { TableFits self.new }
        ensures session { self.new.session ≡ self.old.session }
        ensures settles { GoesSettled self.old.rows.items self.new.rows.items }
        ensures all { AreSettledBelow self.new.rows.items (length self.new.rows.items) }
        ensures shown { (c : Client) → ShowsTable self.old c → ShowsTable self.new (finish c (why_of why)) }
    {
        give_up_from(
            &mut self.rows,
            &mut self.prices,
            &mut self.watchers,
            &mut self.settled,
            self.lowest,
            why,
        );
    }
}
