// An open is attached in this session.
ghost use Rattle.std.specs.Prelude.{◌≡◌, ℕ, ◌<◌, true, false, length, vec_capacity};
ghost use Rattle.spec_exchange.specs.Table.{put};
ghost use Rattle.spec_exchange.specs.Client.{Client};
ghost use Rattle.client_rows.specs.operation_rows.Rows.{row_at, owner, stands};
ghost use Rattle.client_rows.specs.open_marks.Marks.{IsHighest};
ghost use Rattle.client_rows.specs.Shown.{KeepsRow};
ghost use Rattle.client_tables.specs.whole_table.Shown.{TableFits, ShowsTable};
ghost use Rattle.client_tables.specs.attached_opens.Opens.{FitsOpens, ShowsAttached};
ghost use Rattle.client_tables.specs.attached_opens.Places.{KeepsPlaces};
ghost use Rattle.client_steps.specs.open_updates.Columns.{attached_now};

use client_tables::{Attached, Table, attach};

/// The operations of an open cost what they do where it is attached. `last` is the highest of them that may be unsettled.
fn attach_rows(table: &mut Table, last: u32)
    requires fits { TableFits table.old }
    requires within { last < length table.old.rows.items }
    ensures fits { TableFits table.new }
    ensures session { table.new.session ≡ table.old.session }
    ensures place { (x : ℕ) → KeepsRow table.old.rows.items table.new.rows.items x }
    ensures shown { (c : Client) → ShowsTable table.old c
        → ((h : ℕ) → last < h → owner table.old.rows.items h ≡ owner table.old.rows.items last → stands table.old.rows.items h ≡ false)
        → c.live ≡ true → ShowsTable table.new (record c {
          attached = put c.attached (owner table.old.rows.items last) c.session_number;
        }) }
{
    attach(&mut table.rows, &mut table.prices, &table.watchers, last);
}

fn renumber(own: &mut Attached, number: u32)
    ensures session { own.new.session ≡ number }
    ensures slots { own.new.slots.items ≡ own.old.slots.items }
    ensures locks { own.new.locks ≡ own.old.locks }
    ensures room { vec_capacity own.new.slots ≡ vec_capacity own.old.slots }
{
    own.session = number;
}

fn open_of(table: &Table, index: usize) -> usize
    requires { index < length table.now.rows.items }
    ensures { result ≡ (row_at table.now.rows.items index).«open» }
{
    table.rows[index].open as usize
}

/// An operation's open is attached in this session. `last`: the highest operation of the open.
pub fn join_at(table: &mut Table, attached: &mut [Attached], index: usize, last: u32)
    requires fits { TableFits table.old }
    requires opens { FitsOpens table.old.rows.items attached.old }
    requires above { 0 < index }
    requires within { index < length table.old.rows.items }
    requires last { IsHighest (owner table.old.rows.items) (λ h. true) (owner table.old.rows.items index)
        (length table.old.rows.items) last }
    ensures fits { TableFits table.new }
    ensures opens { FitsOpens table.new.rows.items attached.new }
    ensures count { length attached.new ≡ length attached.old }
    ensures session { table.new.session ≡ table.old.session }
    ensures places { KeepsPlaces table.old.rows.items table.new.rows.items }
    ensures stand { (g : ℕ) → stands table.new.rows.items g ≡ stands table.old.rows.items g }
    ensures shown { (c : Client) → ShowsTable table.old c → ShowsAttached table.old.rows.items attached.old c → c.live ≡ true
        → ShowsTable table.new (attached_now c index) × ShowsAttached table.new.rows.items attached.new (attached_now c index) }
{
    let at = open_of(table, index);
    let number = table.session.number();
    renumber(&mut attached[at], number);
    attach_rows(table, last);
}
