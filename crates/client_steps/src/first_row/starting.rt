// The first row.
ghost use Rattle.std.specs.Prelude.{◌≡◌, ◌<◌, length, OnOk};
ghost use Rattle.spec_exchange.specs.Client.{Client};
ghost use Rattle.client_tables.specs.whole_table.Shown.{TableFits, ShowsTable};
ghost use Rattle.client_steps.specs.taking.Taken.{KeepsOrBegins};
ghost use Rattle.client_steps.specs.unsent.Ascending.{Ascends};

use crate::taking::make_first;
use client_tables::Table;
use std::alloc::AllocError;

/// Row 0 is none; it comes before the first operation, and `later`, which has by operation the next higher one of its open, gets an entry
/// for it. Where memory runs out the table shows what it showed.
pub fn start_rows(table: &mut Table, later: &mut Vec<u32>) -> Result<(), AllocError>
    requires fits { TableFits table.old }
    requires later { Ascends table.old.rows.items later.old.items }
    ensures fits { TableFits table.new }
    ensures later { Ascends table.new.rows.items later.new.items }
    ensures some { OnOk result (0 < length table.new.rows.items) }
    ensures rows { KeepsOrBegins table.old.rows.items table.new.rows.items }
    ensures shown { (c : Client) → ShowsTable table.old c → ShowsTable table.new c }
{
    if !table.rows.is_empty() {
        return Ok(());
    }
    later.reserve(1)?;
    make_first(table)?;
    later.push_reserved(0);
    Ok(())
}
