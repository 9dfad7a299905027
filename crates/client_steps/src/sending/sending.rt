// An operation goes out, or a request to attach its open does.
ghost use Rattle.std.specs.Prelude.{◌≡◌, ℕ, ◌+◌, ◌<◌, ◌≤◌, ◌||◌, not, true, List, length};
ghost use Rattle.spec_exchange.specs.Client.{Client, goes_itself as goes, has_its_slot, is_attached, may_push};
ghost use Rattle.spec_exchange.specs.ClientStep.{op_after};
ghost use Rattle.client_rows.specs.operation_rows.Rows.{row_at, kind};
ghost use Rattle.client_rows.specs.open_marks.Marks.{is_create_kind, is_lock_kind};
ghost use Rattle.client_rows.specs.session_state.Shown.{ClientShowsSession};
ghost use Rattle.client_tables.specs.declared.choice.finding.Attached.{Attached as Opens};
ghost use Rattle.client_tables.specs.choice.Shown.{IsChoiceAt};
ghost use Rattle.client_tables.specs.whole_table.Shown.{TableFits, ShowsTable};
ghost use Rattle.client_tables.specs.declared.attached_opens.opened.Opened.{Opened as Known};
ghost use Rattle.client_tables.specs.attached_opens.Known.{ShowsOpened};
ghost use Rattle.client_tables.specs.attached_opens.Opens.{FitsOpens, ShowsAttached};
ghost use Rattle.client_tables.specs.attached_opens.Places.{KeepsPlaces};

use crate::sending::locking::send_locking;
use crate::{ask_at, send_plain_at};
use client_tables::{Attached, Table, goes_itself};
use client_values::Kind;

fn open_of(table: &Table, index: usize) -> usize
    requires { index < length table.now.rows.items }
    ensures { result ≡ (row_at table.now.rows.items index).«open» }
{
    table.rows[index].open as usize
}

fn is_lock(table: &Table, index: usize) -> bool
    requires { index < length table.now.rows.items }
    ensures { result ≡ is_lock_kind (kind table.now.rows.items index) }
{
    match table.rows[index].kind {
        Kind::Lock => true,
        _ => false,
    }
}

/// Whether an operation goes out itself, by its open.
fn goes_now(table: &Table, own: &Attached, index: usize) -> bool
    requires { index < length table.now.rows.items }
    ensures { (c : Client) (create : ℕ) → ClientShowsSession table.now.session c → c.attached create ≡ own.now.session
        → result ≡ (is_create_kind (kind table.now.rows.items index) || is_attached c create) }
{
    goes_itself(&table.rows, &table.session, own.session, index)
}

/// An operation that may go out does so itself, with its slot where it is a lock that goes out first, or a request to attach its open goes
/// out in its place; true where that does.
pub fn send(
    table: &mut Table,
    attached: &mut [Attached],
    index: usize,
    slot: u8,
    channel: u8,
) -> bool
    requires fits { TableFits table.old }
    requires opens { FitsOpens table.old.rows.items attached.old }
    requires above { 0 < index }
    requires within { index < length table.old.rows.items }
    requires slot { (o : Opens) → IsChoiceAt attached.old (row_at table.old.rows.items index).«open» o → slot ≤ length o.slots.items + 1 }
    requires few { slot ≤ 64 }
    ensures fits { TableFits table.new }
    ensures opens { FitsOpens table.new.rows.items attached.new }
    ensures session { table.new.session ≡ table.old.session }
    ensures places { KeepsPlaces table.old.rows.items table.new.rows.items }
    ensures shown { (c : Client) → ShowsTable table.old c → ShowsAttached table.old.rows.items attached.old c
        → may_push c channel index ≡ true
        → (goes c index ≡ true → has_its_slot c index slot ≡ true) → ShowsTable table.new (op_after c channel index slot)
        × ShowsAttached table.new.rows.items attached.new (op_after c channel index slot) }
    ensures known { (c : Client) (opened : List Known) → ShowsOpened table.old.rows.items opened c
        → ShowsOpened table.new.rows.items opened (op_after c channel index slot) }
    ensures told { (c : Client) → ShowsTable table.old c → ShowsAttached table.old.rows.items attached.old c → result ≡ not (goes c index) }
{
    let at = open_of(table, index);
    if !goes_now(table, &attached[at], index) {
        ask_at(table, index, channel);
        return true;
    }
    if !is_lock(table, index) {
        send_plain_at(table, index, channel);
        return false;
    }
    send_locking(table, &mut attached[at].slots, index, slot, channel);
    false
}
