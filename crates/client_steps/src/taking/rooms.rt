// Room for one operation more.
ghost use Rattle.std.specs.Prelude.{◌≡◌, ◌+◌, ◌<◌, ◌^◌, length, OnOk, OnErr};
ghost use Rattle.spec_exchange.specs.Client.{Client};
ghost use Rattle.client_tables.specs.whole_table.Shown.{TableFits, ShowsTable};
ghost use Rattle.client_steps.specs.taking.Taken.{HasRooms, KeepsOrBegins};

use client_rows::begin;
use client_tables::Table;
use std::alloc::AllocError;

/// Row 0 is none; it comes before the first operation. Where memory runs out the table shows what it showed.
pub fn make_first(table: &mut Table) -> Result<(), AllocError>
    requires fits { TableFits table.old }
    ensures fits { TableFits table.new }
    ensures some { OnOk result (0 < length table.new.rows.items) }
    ensures rows { KeepsOrBegins table.old.rows.items table.new.rows.items }
    ensures same { OnErr result (table.new.rows.items ≡ table.old.rows.items) }
    ensures shown { (c : Client) → ShowsTable table.old c → ShowsTable table.new c }
{
    if !table.rows.is_empty() {
        return Ok(());
    }
    table.out.reserve()?;
    begin(&mut table.rows, &mut table.prices, &mut table.watchers)?;
    table.out.add();
    Ok(())
}

fn count_of(table: &Table) -> usize
    ensures { result ≡ length table.now.rows.items }
{
    table.rows.len()
}

/// Room for the values of one operation more, for its number in the set of what is outstanding, and for its place in the order of the
/// replies. The table shows what it showed, where memory runs out too.
pub fn make_room(table: &mut Table) -> Result<(), AllocError>
    requires fits { TableFits table.old }
    requires few { length table.old.rows.items + 1 < 2 ^ 32 }
    ensures fits { TableFits table.new }
    ensures rows { table.new.rows ≡ table.old.rows }
    ensures room { OnOk result (HasRooms table.new) }
    ensures shown { (c : Client) → ShowsTable table.old c → ShowsTable table.new c }
{
    let count = count_of(table);
    // Made at the submit, because sending, settling and a cut take no memory.
    table.ops.reserve(1)?;
    table.settled.reserve(1)?;
    table.order.reserve(count + 1)?;
    table.out.reserve()
}
