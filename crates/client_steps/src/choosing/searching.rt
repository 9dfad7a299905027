// One step of the choice.
ghost use Rattle.std.specs.Prelude.{◌≡◌, ℕ, ◌<◌, true, List};
ghost use Rattle.spec_exchange.specs.Client.{Client};
ghost use Rattle.law_client.specs.table.Kept.{TableKept};
ghost use Rattle.client_tables.specs.choice.Shown.{IsChoiceInside, ChoiceTells};
ghost use Rattle.client_tables.specs.whole_table.Shown.{TableFits, ShowsTable};
ghost use Rattle.client_tables.specs.attached_opens.Places.{KeepsPlaces};
ghost use Rattle.client_tables.specs.attached_opens.Opens.{FitsOpens, ShowsAttached};

use client_tables::{Attached, Found, Table, find};

/// What is found from one operation on.
pub fn search(table: &mut Table, attached: &[Attached], from: usize, credits: u8) -> Found
    requires fits { TableFits table.old }
    requires opens { FitsOpens table.old.rows.items attached.now }
    requires above { 0 < from }
    requires credits { credits < 255 }
    ensures fits { TableFits table.new }
    ensures session { table.new.session ≡ table.old.session }
    ensures places { KeepsPlaces table.old.rows.items table.new.rows.items }
    ensures inside { IsChoiceInside table.new.rows.items attached.now from result }
    ensures shown { (c : Client) → ShowsTable table.old c → ShowsTable table.new c }
    ensures told { (c : Client) (k : ℕ) (slotless : List ℕ) → ShowsTable table.old c → ShowsAttached table.old.rows.items attached.now c
        → TableKept c → c.ready k ≡ true → ChoiceTells c k credits slotless from result }
{
    find(
        &mut table.rows,
        &table.holders,
        &mut table.prices,
        &mut table.watchers,
        attached,
        &table.session,
        from,
        credits,
    )
}
