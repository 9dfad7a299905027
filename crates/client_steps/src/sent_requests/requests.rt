// The requests of a client's operations (MS-SMB2 3.2.4, 3.2.4.4).
ghost use Rattle.std.specs.Prelude.{◌≡◌, ◌+◌, ◌*◌, ◌<◌, length, slice_index_or, IfOk};
ghost use Rattle.spec_exchange.specs.Operations.{reconnect_of as reconnecting, request_of as requesting};
ghost use Rattle.spec_exchange.specs.Client.{Client, create_for, guid_for};
ghost use Rattle.wire_commands.specs.values.Meaning.{client_command_of};
ghost use Rattle.client_values.specs.declared.operations.values.OpKind.TheVariants as kinds;
ghost use Rattle.client_values.specs.operations.Meaning.{op_of};
ghost use Rattle.client_rows.specs.operation_rows.Rows.{row_at, owner};
ghost use Rattle.client_tables.specs.whole_table.Shown.{TableFits, ShowsTable};
ghost use Rattle.client_tables.specs.declared.attached_opens.opened.Opened.{Opened as Known};
ghost use Rattle.client_tables.specs.attached_opens.Known.{IsKnownAt, ShowsOpened};

use client_rows::Row;
use client_tables::{Opened, Table};
use client_values::{Ids, OpKind, reconnect_of, request_of};
use std::alloc::{AllocError, Global};
use wire_commands::ClientCommand;

// By the number, so that each copy of a create has the same CreateGuid and none has to be kept.
/// A CreateGuid: the number of an operation, and the eight random bytes of a run.
fn guid_of(salt: u64, number: u64) -> u128
    ensures { result ≡ salt * 0x1_0000_0000_0000_0000 + number }
{
    salt as u128 * 0x1_0000_0000_0000_0000 + number as u128
}

fn row_of(table: &Table, index: usize) -> Row
    requires { index < length table.now.rows.items }
    ensures { result ≡ row_at table.now.rows.items index }
{
    table.rows[index]
}

fn known_at(opened: &[Opened], at: usize) -> Opened
    requires { at < length opened.now }
    ensures { IsKnownAt opened.now at result }
{
    opened[at]
}

/// The FileId of an operation's open; 0 before its create's success.
fn file_at(opened: &[Opened], at: usize) -> u128
    requires { at < length opened.now }
    ensures { (o : Known) × (IsKnownAt opened.now at o) × (result ≡ o.file) }
{
    let known = known_at(opened, at);
    known.file
}

/// How an operation goes out.
fn ids_of(table: &Table, opened: &[Opened], index: usize, salt: u64) -> Ids
    requires above { 0 < index }
    requires within { index < length table.now.rows.items }
    requires known { (row_at table.now.rows.items index).«open» < length opened.now }
    ensures guid { result.guid ≡ salt * 0x1_0000_0000_0000_0000 + index }
    ensures file { (c : Client) → ShowsOpened table.now.rows.items opened.now c
        → c.file (owner table.now.rows.items index) ≡ result.file }
    ensures slot { (c : Client) → ShowsTable table.now c → c.slot_of index ≡ result.slot }
    ensures number { (c : Client) → ShowsTable table.now c → c.number_of index ≡ result.number }
{
    let row = row_of(table, index);
    let file = file_at(opened, row.open as usize);
    let guid = guid_of(salt, index as u64);
    Ids {
        guid,
        file,
        slot: row.slot,
        number: row.slot_number,
    }
}

fn request_at<'a>(
    alloc: Global,
    ops: &'a [OpKind],
    place: usize,
    ids: Ids,
) -> Result<ClientCommand<'a>, AllocError>
    requires { place < length ops.now }
    ensures { IfOk result (λ q. client_command_of q
        ≡ requesting (op_of (slice_index_or ops.now place (kinds.Close 0))) ids.guid ids.file ids.slot ids.number) }
{
    request_of(alloc, &ops[place], ids)
}

fn reconnect_at<'a>(
    ops: &'a [OpKind],
    place: usize,
    guid: u128,
    file: u128,
) -> Result<ClientCommand<'a>, AllocError>
    requires { place < length ops.now }
    ensures { IfOk result (λ q. client_command_of q ≡ reconnecting (op_of (slice_index_or ops.now place (kinds.Close 0))) guid file) }
{
    reconnect_of(&ops[place], guid, file)
}

/// An operation's own request. `salt` are the eight random bytes of the run. What it writes is borrowed.
pub fn own_request<'a>(
    alloc: Global,
    table: &'a Table,
    opened: &[Opened],
    index: usize,
    salt: u64,
) -> Result<ClientCommand<'a>, AllocError>
    requires fits { TableFits table.now }
    requires above { 0 < index }
    requires within { index < length table.now.rows.items }
    requires known { (row_at table.now.rows.items index).«open» < length opened.now }
    ensures { IfOk result (λ q. (c : Client) → ShowsTable table.now c → ShowsOpened table.now.rows.items opened.now c → c.who.salt ≡ salt
        → client_command_of q ≡ requesting (c.op index) (guid_for c index) (c.file (create_for c index)) (c.slot_of index)
        (c.number_of index)) }
{
    let ids = ids_of(table, opened, index, salt);
    request_at(alloc, &table.ops, index - 1, ids)
}

fn owner_of(table: &Table, index: usize) -> usize
    requires { index < length table.now.rows.items }
    ensures { result ≡ owner table.now.rows.items index }
{
    table.rows[index].create as usize
}

/// The create of an operation. It was taken.
fn create_at(table: &Table, index: usize) -> usize
    requires fits { TableFits table.now }
    requires above { 0 < index }
    requires within { index < length table.now.rows.items }
    ensures is { result ≡ owner table.now.rows.items index }
    ensures above { 0 < result }
    ensures within { result < length table.now.rows.items }
{
    let create = owner_of(table, index);
    create
}

/// The request to attach the open of an operation, in its place.
pub fn ask_request<'a>(
    table: &'a Table,
    opened: &[Opened],
    index: usize,
    salt: u64,
) -> Result<ClientCommand<'a>, AllocError>
    requires fits { TableFits table.now }
    requires above { 0 < index }
    requires within { index < length table.now.rows.items }
    requires known { (row_at table.now.rows.items index).«open» < length opened.now }
    ensures { IfOk result (λ q. (c : Client) → ShowsTable table.now c → ShowsOpened table.now.rows.items opened.now c → c.who.salt ≡ salt
        → client_command_of q ≡ reconnecting (c.op (create_for c index)) (guid_for c (create_for c index)) (c.file (create_for c index))) }
{
    let create = create_at(table, index);
    let row = row_of(table, index);
    let file = file_at(opened, row.open as usize);
    let guid = guid_of(salt, create as u64);
    reconnect_at(&table.ops, create - 1, guid, file)
}
