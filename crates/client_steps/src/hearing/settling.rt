// An operation settles by a response.
ghost use Rattle.std.specs.Prelude.{◌≡◌, ℕ, ◌<◌, ◌==◌, ◌&&◌, ◌||◌, not, true, List, length, None};
ghost use Rattle.spec_exchange.specs.State.{Body, Reply};
ghost use Rattle.spec_exchange.specs.Status.{disk_full};
ghost use Rattle.spec_exchange.specs.Operations.{id_in, is_create};
ghost use Rattle.spec_exchange.specs.Client.{Client, create_for};
ghost use Rattle.spec_exchange.specs.Settling.{noted, noted_full, settle};
ghost use Rattle.law_client.specs.table.Columns.{IsClientFirst, ops_of, standing_of};
ghost use Rattle.law_client.specs.table.Kept.{TableKept};
ghost use Rattle.client_values.specs.operations.Waiting.{is_close_kind};
ghost use Rattle.client_rows.specs.operation_rows.Rows.{kind, owner, stands};
ghost use Rattle.client_rows.specs.open_marks.Marks.{IsHighest, is_create_kind, is_lock_kind};
ghost use Rattle.client_values.specs.outcomes.Meaning.{outcome_of};
ghost use Rattle.client_tables.specs.whole_table.Shown.{TableFits, ShowsTable};
ghost use Rattle.client_tables.specs.declared.attached_opens.opened.Opened.{Opened as Known};
ghost use Rattle.client_tables.specs.attached_opens.Known.{ShowsOpened};
ghost use Rattle.client_tables.specs.attached_opens.Opens.{FitsOpens, ShowsAttached};
ghost use Rattle.client_tables.specs.attached_opens.Places.{KeepsPlaces};
ghost use Rattle.client_steps.specs.unsent.Ascending.{Ascends};

use crate::hearing::giving::give_up_open;
use crate::open_updates::{Opened, fill_at, note_ok};
use client_tables::{Attached, Table};
use client_values::{Kind, Outcome};

const DISK_FULL: u32 = 0xc000_007f;

/// What a success tells of the operation's open, where it is one.
fn note(
    table: &mut Table,
    attached: &mut [Attached],
    opened: &mut [Opened],
    index: usize,
    last: u32,
    outcome: &Outcome,
    file: u128,
)
    requires fits { TableFits table.old }
    requires opens { FitsOpens table.old.rows.items attached.old }
    requires known { length opened.old ≡ length attached.old }
    requires above { 0 < index }
    requires within { index < length table.old.rows.items }
    requires last { IsHighest (owner table.old.rows.items) (λ h. true) (owner table.old.rows.items index)
        (length table.old.rows.items) last }
    ensures fits { TableFits table.new }
    ensures opens { FitsOpens table.new.rows.items attached.new }
    ensures count { length attached.new ≡ length attached.old }
    ensures known { length opened.new ≡ length opened.old }
    ensures session { table.new.session ≡ table.old.session }
    ensures places { KeepsPlaces table.old.rows.items table.new.rows.items }
    ensures stand { (g : ℕ) → stands table.new.rows.items g ≡ stands table.old.rows.items g }
    ensures shown { (c : Client) (body : Body) → ShowsTable table.old c → ShowsAttached table.old.rows.items attached.old c
        → ShowsOpened table.old.rows.items opened.old c → c.live ≡ true → (is_create (c.op index) ≡ true → create_for c index ≡ index)
        → file ≡ id_in body → ShowsTable table.new (noted c index (outcome_of outcome.now) body)
        × ShowsAttached table.new.rows.items attached.new (noted c index (outcome_of outcome.now) body)
        × ShowsOpened table.new.rows.items opened.new (noted c index (outcome_of outcome.now) body) }
{
    if outcome.is_ok() {
        note_ok(table, attached, opened, index, last, file);
    }
}

fn is_lock(table: &Table, index: usize) -> bool
    requires { index < length table.now.rows.items }
    ensures { result ≡ is_lock_kind (kind table.now.rows.items index) }
{
    match table.rows[index].kind {
        Kind::Lock => true,
        _ => false,
    }
}

fn settles_open(table: &Table, index: usize) -> bool
    requires { index < length table.now.rows.items }
    ensures { result ≡ (is_create_kind (kind table.now.rows.items index) || is_close_kind (kind table.now.rows.items index)) }
{
    match table.rows[index].kind {
        Kind::Create => true,
        Kind::Close => true,
        _ => false,
    }
}

/// Whether a lock itself met DISK_FULL.
fn is_full(table: &Table, index: usize, asking: bool, status: u32) -> bool
    requires { index < length table.now.rows.items }
    ensures { result ≡ (is_lock_kind (kind table.now.rows.items index) && (not asking && (status == disk_full))) }
{
    is_lock(table, index) && (!asking && status == DISK_FULL)
}

/// The slot of a lock that met DISK_FULL isn't taken again.
fn fill(table: &Table, attached: &mut [Attached], index: usize, asking: bool, status: u32)
    requires fits { TableFits table.now }
    requires opens { FitsOpens table.now.rows.items attached.old }
    requires above { 0 < index }
    requires within { index < length table.now.rows.items }
    ensures opens { FitsOpens table.now.rows.items attached.new }
    ensures count { length attached.new ≡ length attached.old }
    ensures shown { (c : Client) (opened : List Known) → ShowsTable table.now c → ShowsAttached table.now.rows.items attached.old c
        → ShowsOpened table.now.rows.items opened c → ShowsTable table.now (noted_full c index asking status)
        × ShowsAttached table.now.rows.items attached.new (noted_full c index asking status)
        × ShowsOpened table.now.rows.items opened (noted_full c index asking status) }
{
    if is_full(table, index, asking, status) {
        fill_at(table, attached, index);
    }
}

/// What a response tells of the operation's open is noted.
fn note_reply(
    table: &mut Table,
    attached: &mut [Attached],
    opened: &mut [Opened],
    index: usize,
    last: u32,
    outcome: &Outcome,
    asking: bool,
    status: u32,
    file: u128,
)
    requires fits { TableFits table.old }
    requires opens { FitsOpens table.old.rows.items attached.old }
    requires known { length opened.old ≡ length attached.old }
    requires above { 0 < index }
    requires within { index < length table.old.rows.items }
    requires last { IsHighest (owner table.old.rows.items) (λ h. true) (owner table.old.rows.items index)
        (length table.old.rows.items) last }
    ensures fits { TableFits table.new }
    ensures opens { FitsOpens table.new.rows.items attached.new }
    ensures count { length attached.new ≡ length attached.old }
    ensures known { length opened.new ≡ length opened.old }
    ensures session { table.new.session ≡ table.old.session }
    ensures places { KeepsPlaces table.old.rows.items table.new.rows.items }
    ensures stand { (g : ℕ) → stands table.new.rows.items g ≡ stands table.old.rows.items g }
    ensures shown { (c : Client) (body : Body) → ShowsTable table.old c → ShowsAttached table.old.rows.items attached.old c
        → ShowsOpened table.old.rows.items opened.old c → c.live ≡ true → (is_create (c.op index) ≡ true → create_for c index ≡ index)
        → file ≡ id_in body → ShowsTable table.new (noted_full (noted c index (outcome_of outcome.now) body) index asking status)
        × ShowsAttached table.new.rows.items attached.new (noted_full (noted c index (outcome_of outcome.now) body) index asking status)
        × ShowsOpened table.new.rows.items opened.new (noted_full (noted c index (outcome_of outcome.now) body) index asking status) }
{
    note(table, attached, opened, index, last, outcome, file);
    fill(table, attached, index, asking, status);
}

/// An unsettled operation of which nothing is outstanding any more, and which waits for nothing, settles by a response, and all that hangs
/// on its open and never went out settles with it where the open is gone then. `last`: the highest operation of its open.
pub fn settle_heard(
    table: &mut Table,
    attached: &mut [Attached],
    opened: &mut [Opened],
    later: &[u32],
    index: usize,
    last: u32,
    outcome: Outcome,
    asking: bool,
    status: u32,
    file: u128,
)
    requires fits { TableFits table.old }
    requires opens { FitsOpens table.old.rows.items attached.old }
    requires known { length opened.old ≡ length attached.old }
    requires later { Ascends table.old.rows.items later.now }
    requires above { 0 < index }
    requires within { index < length table.old.rows.items }
    requires unsettled { stands table.old.rows.items index ≡ true }
    requires last { IsHighest (owner table.old.rows.items) (λ h. true) (owner table.old.rows.items index)
        (length table.old.rows.items) last }
    ensures fits { TableFits table.new }
    ensures opens { FitsOpens table.new.rows.items attached.new }
    ensures count { length attached.new ≡ length attached.old }
    ensures known { length opened.new ≡ length opened.old }
    ensures session { table.new.session ≡ table.old.session }
    ensures places { KeepsPlaces table.old.rows.items table.new.rows.items }
    ensures shown { (c : Client) (r : Reply) (place : ℕ) → ShowsTable table.old c → ShowsAttached table.old.rows.items attached.old c
        → ShowsOpened table.old.rows.items opened.old c → c.live ≡ true → TableKept c → r.status ≡ status → file ≡ id_in r.body
        → IsClientFirst (ops_of c) (standing_of c) index → c.outstanding_on index ≡ None → TableKept (settle c index asking r place (outcome_of outcome))
        → ShowsTable table.new (settle c index asking r place (outcome_of outcome))
        × ShowsAttached table.new.rows.items attached.new (settle c index asking r place (outcome_of outcome))
        × ShowsOpened table.new.rows.items opened.new (settle c index asking r place (outcome_of outcome)) }
{
    // Noted, settled and then given up: whether the open is gone is judged by what was noted and by how its create
    // settled.
    note_reply(
        table, attached, opened, index, last, &outcome, asking, status, file,
    );
    table.settle_by_reply(index, outcome);
    if settles_open(table, index) {
        give_up_open(table, attached, opened, later, index);
    }
}
