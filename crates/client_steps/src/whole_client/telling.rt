// What a client tells of its operations.
ghost use Rattle.std.specs.Prelude.{◌≡◌, ◌<◌, true, length, map, slice_index_or, IfSome, IfNone};
ghost use Rattle.spec_exchange.specs.Operations.{Unsettled};
ghost use Rattle.spec_exchange.specs.Client.{Client as Model, is_taken};
ghost use Rattle.client_rows.specs.operation_rows.Rows.{stands};
ghost use Rattle.client_values.specs.declared.outcomes.outcome.Outcome.TheVariants as outcomes;
ghost use Rattle.client_values.specs.outcomes.Meaning.{dialog_of, outcome_of};
ghost use Rattle.client_steps.specs.whole_client.Shown.{FitsClient, ShowsClient};

use crate::whole_client::client::{Client, has_row};
use client_tables::Table;
use client_values::{Outcome, RefusedDialog};

fn stands_at(table: &Table, index: usize) -> bool
    requires { index < length table.now.rows.items }
    ensures { result ≡ stands table.now.rows.items index }
{
    table.rows[index].unsettled
}

fn settled_at(settled: &[Outcome], place: usize) -> &Outcome
    requires { place < length settled.now }
    ensures { result.now ≡ slice_index_or settled.now place (outcomes.NoOpen 0) }
{
    &settled[place]
}

fn count_of(table: &Table) -> usize
    ensures { result ≡ length table.now.ops.items }
{
    table.ops.len()
}

impl Client {
    /// How many operations were taken; they have the numbers from 1.
    pub fn taken(&self) -> usize
        ensures { (c : Model) → ShowsClient self.now c → c.taken ≡ result }
    {
        count_of(&self.table)
    }

    /// How an operation settled; none where it is unsettled, or wasn't taken.
    pub fn outcome(&self, number: u32) -> Option<&Outcome>
        requires fits { FitsClient self.now }
        ensures some { IfSome result (λ o. (c : Model) → ShowsClient self.now c
            → (is_taken c number ≡ true) × (c.outcome number ≡ outcome_of o.now)) }
        ensures none { IfNone result ((c : Model) → ShowsClient self.now c → is_taken c number ≡ true → c.outcome number ≡ Unsettled) }
    {
        let index = number as usize;
        if index == 0 {
            return None;
        }
        if !has_row(&self.table, index) {
            return None;
        }
        if stands_at(&self.table, index) {
            return None;
        }
        Some(settled_at(&self.table.settled, index - 1))
    }

    /// The numbers of the operations that a reply settled, in the order of the replies.
    pub fn order(&self) -> &[u32]
        ensures { (c : Model) → ShowsClient self.now c → c.order ≡ result.now }
    {
        self.table.order.as_slice()
    }

    /// The dialogs that were refused, in the order in which they were.
    pub fn refusals(&self) -> &[RefusedDialog]
        ensures { (c : Model) → ShowsClient self.now c → c.refusals ≡ map dialog_of result.now }
    {
        self.table.dialogs.as_slice()
    }
}
