// What a success tells of an open.
ghost use Rattle.std.specs.Prelude.{◌≡◌, ℕ, ◌<◌, true, length};
ghost use Rattle.spec_exchange.specs.State.{Body};
ghost use Rattle.spec_exchange.specs.Operations.{id_in, is_create};
ghost use Rattle.spec_exchange.specs.Client.{Client, create_for};
ghost use Rattle.spec_exchange.specs.Settling.{noted_ok};
ghost use Rattle.client_rows.specs.operation_rows.Rows.{row_at, kind, owner, stands};
ghost use Rattle.client_values.specs.operations.Waiting.{is_close_kind};
ghost use Rattle.client_rows.specs.open_marks.Marks.{IsHighest, is_create_kind};
ghost use Rattle.client_tables.specs.whole_table.Shown.{TableFits, ShowsTable};
ghost use Rattle.client_tables.specs.attached_opens.Known.{ShowsOpened};
ghost use Rattle.client_tables.specs.attached_opens.Opens.{FitsOpens, ShowsAttached};
ghost use Rattle.client_tables.specs.attached_opens.Places.{KeepsPlaces};

use crate::open_updates::attaching::join_at;
use client_tables::{Attached, Opened, Table};
use client_values::Kind;

fn open_of(table: &Table, index: usize) -> usize
    requires { index < length table.now.rows.items }
    ensures { result ≡ (row_at table.now.rows.items index).«open» }
{
    table.rows[index].open as usize
}

fn makes_open(table: &Table, index: usize) -> bool
    requires { index < length table.now.rows.items }
    ensures { result ≡ is_create_kind (kind table.now.rows.items index) }
{
    match table.rows[index].kind {
        Kind::Create => true,
        _ => false,
    }
}

fn shuts_open(table: &Table, index: usize) -> bool
    requires { index < length table.now.rows.items }
    ensures { result ≡ is_close_kind (kind table.now.rows.items index) }
{
    match table.rows[index].kind {
        Kind::Close => true,
        _ => false,
    }
}

fn name_open(own: &mut Opened, file: u128)
    ensures file { own.new.file ≡ file }
    ensures shut { own.new.shut ≡ own.old.shut }
    ensures persist { own.new.persist ≡ own.old.persist }
{
    own.file = file;
}

fn shut_open(own: &mut Opened)
    ensures file { own.new.file ≡ own.old.file }
    ensures shut { own.new.shut ≡ true }
    ensures persist { own.new.persist ≡ own.old.persist }
{
    own.shut = true;
}

/// What the success of an operation tells of its open: a create's, that it is open in this session, under this FileId; a close's, that it
/// is shut. `last`: the highest operation of the open.
pub fn note_ok(
    table: &mut Table,
    attached: &mut [Attached],
    opened: &mut [Opened],
    index: usize,
    last: u32,
    file: u128,
)
    requires fits { TableFits table.old }
    requires opens { FitsOpens table.old.rows.items attached.old }
    requires known { length opened.old ≡ length attached.old }
    requires above { 0 < index }
    requires within { index < length table.old.rows.items }
    requires last { IsHighest (owner table.old.rows.items) (λ h. true) (owner table.old.rows.items index)
        (length table.old.rows.items) last }
    ensures fits { TableFits table.new }
    ensures opens { FitsOpens table.new.rows.items attached.new }
    ensures count { length attached.new ≡ length attached.old }
    ensures known { length opened.new ≡ length opened.old }
    ensures session { table.new.session ≡ table.old.session }
    ensures places { KeepsPlaces table.old.rows.items table.new.rows.items }
    ensures stand { (g : ℕ) → stands table.new.rows.items g ≡ stands table.old.rows.items g }
    ensures shown { (c : Client) (body : Body) → ShowsTable table.old c → ShowsAttached table.old.rows.items attached.old c
        → ShowsOpened table.old.rows.items opened.old c → c.live ≡ true → (is_create (c.op index) ≡ true → create_for c index ≡ index)
        → file ≡ id_in body → ShowsTable table.new (noted_ok c index body)
        × ShowsAttached table.new.rows.items attached.new (noted_ok c index body)
        × ShowsOpened table.new.rows.items opened.new (noted_ok c index body) }
{
    let at = open_of(table, index);
    if makes_open(table, index) {
        name_open(&mut opened[at], file);
        join_at(table, attached, index, last);
        return;
    }
    if shuts_open(table, index) {
        shut_open(&mut opened[at]);
    }
}
