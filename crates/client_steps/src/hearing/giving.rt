// The open of an operation may be gone.
ghost use Rattle.std.specs.Prelude.{◌≡◌, ℕ, ◌<◌, true, length, slice_index_or};
ghost use Rattle.spec_exchange.specs.Operations.{is_create, persists};
ghost use Rattle.spec_exchange.specs.Client.{Client, create_for, is_attached, is_gone as gone};
ghost use Rattle.spec_exchange.specs.Settling.{with_no_opens};
ghost use Rattle.law_client.specs.table.Kept.{TableKept};
ghost use Rattle.client_rows.specs.operation_rows.Rows.{row_at, owner, stands};
ghost use Rattle.client_values.specs.declared.outcomes.outcome.Outcome.TheVariants as outcomes;
ghost use Rattle.client_values.specs.outcomes.Meaning.{outcome_of};
ghost use Rattle.client_tables.specs.whole_table.Shown.{TableFits, ShowsTable};
ghost use Rattle.client_tables.specs.attached_opens.Known.{ShowsOpened};
ghost use Rattle.client_tables.specs.attached_opens.Opens.{FitsOpens, ShowsAttached};
ghost use Rattle.client_tables.specs.attached_opens.Places.{KeepsPlaces};
ghost use Rattle.client_steps.specs.unsent.Ascending.{Ascends};

use crate::open_updates::Opened;
use crate::unsent::give_up_opened;
use client_tables::{Attached, Table};
use client_values::{Outcome, is_gone};

fn open_of(table: &Table, index: usize) -> usize
    requires { index < length table.now.rows.items }
    ensures { result ≡ (row_at table.now.rows.items index).«open» }
{
    table.rows[index].open as usize
}

fn create_of(table: &Table, index: usize) -> u32
    requires { index < length table.now.rows.items }
    ensures { result ≡ owner table.now.rows.items index }
{
    table.rows[index].create
}

fn stands_at(table: &Table, index: usize) -> bool
    requires { index < length table.now.rows.items }
    ensures { result ≡ stands table.now.rows.items index }
{
    table.rows[index].unsettled
}

/// Whether a create that settled gives no open any more, by how it settled.
fn is_gone_at(settled: &[Outcome], place: usize, known: &Opened, attached: bool) -> bool
    requires { place < length settled.now }
    ensures { (c : Client) (create : ℕ) → c.outcome create ≡ outcome_of (slice_index_or settled.now place (outcomes.NoOpen 0))
        → c.closed_ok create ≡ known.now.shut → persists (c.op create) ≡ known.now.persist → is_attached c create ≡ attached
        → result ≡ gone c create }
{
    is_gone(&settled[place], known.shut, known.persist, attached)
}

/// Whether a create gives no open any more, by what is kept of its open.
fn is_gone_now(table: &Table, own: &Attached, known: &Opened, create: usize) -> bool
    requires fits { TableFits table.now }
    requires above { 0 < create }
    requires within { create < length table.now.rows.items }
    ensures { (c : Client) → ShowsTable table.now c → c.attached create ≡ own.now.session → c.closed_ok create ≡ known.now.shut
        → persists (c.op create) ≡ known.now.persist → result ≡ gone c create }
{
    if stands_at(table, create) {
        return false;
    }
    let attached = table.session.is_attached(own.session);
    is_gone_at(&table.settled, create - 1, known, attached)
}

/// Where the create of an operation's open gives none any more, all that hangs on it and never went out settles.
pub fn give_up_open(
    table: &mut Table,
    attached: &[Attached],
    opened: &[Opened],
    later: &[u32],
    index: usize,
)
    requires fits { TableFits table.old }
    requires opens { FitsOpens table.old.rows.items attached.now }
    requires known { length opened.now ≡ length attached.now }
    requires later { Ascends table.old.rows.items later.now }
    requires above { 0 < index }
    requires within { index < length table.old.rows.items }
    ensures fits { TableFits table.new }
    ensures session { table.new.session ≡ table.old.session }
    ensures places { KeepsPlaces table.old.rows.items table.new.rows.items }
    ensures shown { (c : Client) → ShowsTable table.old c → ShowsAttached table.old.rows.items attached.now c
        → ShowsOpened table.old.rows.items opened.now c → is_create (c.op (create_for c index)) ≡ true
        → TableKept (with_no_opens c (create_for c index)) → ShowsTable table.new (with_no_opens c (create_for c index)) }
{
    let create = create_of(table, index);
    let at = open_of(table, index);
    if is_gone_now(table, &attached[at], &opened[at], create as usize) {
        give_up_opened(table, later, create);
    }
}
