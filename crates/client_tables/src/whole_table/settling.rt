// An operation settles.
ghost use Rattle.std.specs.Prelude.{◌≡◌, ◌<◌, true, ◌∷◌, [], ◌++◌, length};
ghost use Rattle.spec_exchange.specs.Client.{Client};
ghost use Rattle.spec_exchange.specs.Table.{put};
ghost use Rattle.law_client.specs.table.Columns.{IsClientFirst, ops_of, standing_of};
ghost use Rattle.client_values.specs.outcomes.Meaning.{outcome_of};
ghost use Rattle.client_rows.specs.operation_rows.Rows.{stands};
ghost use Rattle.client_tables.specs.settling.Shown.{GoesSettled};
ghost use Rattle.client_tables.specs.whole_table.Shown.{TableFits, ShowsTable};

use crate::settling::settle_as;
use crate::whole_table::parts::Table;
use client_values::Outcome;

impl Table {
    /// An operation that waits for nothing settles, without a reply.
    pub fn settle(&mut self, index: usize, outcome: Outcome)
        requires fits { TableFits self.old }
        requires above { 0 < index }
        requires within { index < length self.old.rows.items }
        ensures fits { TableFits self.new }
        ensures session { self.new.session ≡ self.old.session }
        ensures settles { GoesSettled self.old.rows.items self.new.rows.items }
        ensures shown { (c : Client) → ShowsTable self.old c → IsClientFirst (ops_of c) (standing_of c) index
            → ShowsTable self.new (record c { outcome = put c.outcome index (outcome_of outcome) }) }
    {
        settle_as(
            &mut self.rows,
            &mut self.prices,
            &mut self.watchers,
            &mut self.settled,
            index,
            outcome,
        );
    }

    /// An unsettled operation that waits for nothing settles by a reply. There is room for its place in their order.
    pub fn settle_by_reply(&mut self, index: usize, outcome: Outcome)
        requires fits { TableFits self.old }
        requires above { 0 < index }
        requires within { index < length self.old.rows.items }
        requires unsettled { stands self.old.rows.items index ≡ true }
        ensures fits { TableFits self.new }
        ensures session { self.new.session ≡ self.old.session }
        ensures settles { GoesSettled self.old.rows.items self.new.rows.items }
        ensures shown { (c : Client) → ShowsTable self.old c → IsClientFirst (ops_of c) (standing_of c) index
            → ShowsTable self.new (record c {
              outcome = put c.outcome index (outcome_of outcome);
              order = c.order ++ index ∷ [];
            }) }
    {
        self.order.push_reserved(index as u32);
        settle_as(
            &mut self.rows,
            &mut self.prices,
            &mut self.watchers,
            &mut self.settled,
            index,
            outcome,
        );
    }
}
