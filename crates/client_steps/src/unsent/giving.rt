// Operations settle because their create gives no open any more.
ghost use Rattle.std.specs.Prelude.{◌≡◌, ◌+◌, ◌<◌, ◌==◌, ◌&&◌, not, true, length, slice_index};
ghost use Rattle.spec_exchange.specs.Operations.{is_create};
ghost use Rattle.spec_exchange.specs.Client.{Client, is_gone};
ghost use Rattle.spec_exchange.specs.Settling.{with_no_opens};
ghost use Rattle.law_client.specs.table.Kept.{TableKept};
ghost use Rattle.client_rows.specs.operation_rows.Rows.{row_at, stands, owner, kind};
ghost use Rattle.client_tables.specs.whole_table.Shown.{TableFits, ShowsTable};
ghost use Rattle.client_tables.specs.settling.Shown.{GoesSettled};
ghost use Rattle.client_rows.specs.open_marks.Marks.{is_create_kind};
ghost use Rattle.client_steps.specs.unsent.GivenUp.{given_below};
ghost use Rattle.client_steps.specs.unsent.Ascending.{Ascends};

use client_tables::Table;
use client_values::{Kind, Outcome};

fn makes_open(kind: Kind) -> bool
    ensures { result ≡ is_create_kind kind }
{
    match kind {
        Kind::Create => true,
        _ => false,
    }
}

/// Whether an operation is on the open of a create, and isn't the create.
fn is_of(table: &Table, index: usize, create: u32) -> bool
    requires { index < length table.now.rows.items }
    ensures { result ≡ ((owner table.now.rows.items index == create) && not (is_create_kind (kind table.now.rows.items index))) }
{
    table.rows[index].create == create && !makes_open(table.rows[index].kind)
}

/// Whether an operation is unsettled, and never went out itself.
fn is_unsent(table: &Table, index: usize) -> bool
    requires { index < length table.now.rows.items }
    ensures { result ≡ (stands table.now.rows.items index && not (row_at table.now.rows.items index).sent) }
{
    table.rows[index].unsettled && !table.rows[index].sent
}

/// Whether an operation hangs on the open of a create, and never went out.
fn hangs_on(table: &Table, index: usize, create: u32) -> bool
    requires { index < length table.now.rows.items }
    ensures { result ≡ ((stands table.now.rows.items index && not (row_at table.now.rows.items index).sent)
        && ((owner table.now.rows.items index == create) && not (is_create_kind (kind table.now.rows.items index)))) }
{
    is_unsent(table, index) && is_of(table, index, create)
}

/// An operation settles where it hangs on an open that is gone.
fn give_up_one(table: &mut Table, index: usize, create: u32)
    requires fits { TableFits table.old }
    requires above { 0 < index }
    requires within { index < length table.old.rows.items }
    ensures fits { TableFits table.new }
    ensures session { table.new.session ≡ table.old.session }
    ensures settles { GoesSettled table.old.rows.items table.new.rows.items }
    ensures shown { (c : Client) → is_gone c create ≡ true → TableKept (with_no_opens c create)
        → ShowsTable table.old (given_below c create index)
        → ShowsTable table.new (given_below c create (index + 1)) }
{
    if hangs_on(table, index, create) {
        table.settle(index, Outcome::NoOpen(create));
    }
}

/// The next higher one of its open; 0 where there is none.
fn next_of(later: &[u32], index: usize) -> usize
    requires { index < length later.now }
    ensures { result ≡ slice_index later.now index }
{
    later[index] as usize
}

/// The open of a create is gone: what hangs on it and never went out settles. `later`: by operation, the next higher one of its open;
/// 0 where there is none.
pub fn give_up_opened(table: &mut Table, later: &[u32], create: u32)
    requires fits { TableFits table.old }
    requires later { Ascends table.old.rows.items later.now }
    requires above { 0 < create }
    requires within { create < length table.old.rows.items }
    ensures fits { TableFits table.new }
    ensures session { table.new.session ≡ table.old.session }
    ensures settles { GoesSettled table.old.rows.items table.new.rows.items }
    ensures shown { (c : Client) → is_gone c create ≡ true → is_create (c.op create) ≡ true → TableKept (with_no_opens c create)
        → ShowsTable table.old c → ShowsTable table.new (with_no_opens c create) }
{
    let mut at = create as usize;
    while at != 0 {
        give_up_one(table, at, create);
        at = next_of(later, at);
    }
}
