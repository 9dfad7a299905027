// How an open stands that an operation comes onto.
ghost use Rattle.std.specs.Prelude.{◌≡◌, ℕ, ◌<◌, length};
ghost use Rattle.spec_exchange.specs.Operations.{persists};
ghost use Rattle.spec_exchange.specs.Client.{Client, is_attached, is_gone as gone};
ghost use Rattle.client_tables.specs.whole_table.Shown.{TableFits, ShowsTable};

use client_tables::{Attached, Opened, Table};
use client_values::is_gone;

/// Whether the open is attached in the session.
pub fn is_attached_now(table: &Table, own: &Attached) -> bool
    ensures { (c : Client) (create : ℕ) → ShowsTable table.now c → c.attached create ≡ own.now.session → result ≡ is_attached c create }
{
    table.session.is_attached(own.session)
}

/// Whether a create won't give an open any more.
pub fn is_gone_now(table: &Table, known: &Opened, own: &Attached, create: usize) -> bool
    requires fits { TableFits table.now }
    requires above { 0 < create }
    requires within { create < length table.now.rows.items }
    ensures { (c : Client) → ShowsTable table.now c → c.attached create ≡ own.now.session → c.closed_ok create ≡ known.now.shut
        → persists (c.op create) ≡ known.now.persist → result ≡ gone c create }
{
    if table.rows[create].unsettled {
        return false;
    }
    let attached = is_attached_now(table, own);
    is_gone(
        &table.settled[create - 1],
        known.shut,
        known.persist,
        attached,
    )
}
