// The session ends.
ghost use Rattle.std.specs.Prelude.{◌≡◌};
ghost use Rattle.spec_exchange.specs.Client.{Client, end_session};
ghost use Rattle.law_client.specs.table.Kept.{TableKept};
ghost use Rattle.client_rows.specs.declared.session_state.session.Session.{Session};
ghost use Rattle.client_rows.specs.session_state.Shown.{ClientShowsSession};
ghost use Rattle.client_tables.specs.whole_table.Shown.{TableFits, ShowsTable};
ghost use Rattle.client_tables.specs.attached_opens.Places.{KeepsPlaces};

use client_tables::{Table, end_from, lose_all};

/// The session ended: what was outstanding is lost, and what hung on a plain open settles. The session itself is as it is behind its
/// end; all else is made so here.
pub fn end_table(table: &mut Table)
    requires fits { TableFits table.old }
    ensures fits { TableFits table.new }
    ensures session { table.new.session ≡ table.old.session }
    ensures places { KeepsPlaces table.old.rows.items table.new.rows.items }
    ensures shown { (c : Client) (was : Session) → ShowsTable (record table.old { session = was }) c → TableKept c
        → ClientShowsSession table.old.session (end_session c) → ShowsTable table.new (end_session c) }
{
    lose_all(
        &mut table.rows,
        &mut table.prices,
        &table.watchers,
        &mut table.out,
    );
    let number = table.session.number();
    end_from(
        &mut table.rows,
        &mut table.prices,
        &mut table.watchers,
        &mut table.settled,
        &table.ops,
        table.lowest,
        number,
    );
}
