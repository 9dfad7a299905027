// A response is heard.
ghost use Rattle.std.specs.Prelude.{◌≡◌, ℕ, ◌<◌, ◌&&◌, nat_lt, not, true, false, if◌then◌else◌, length, slice_index_or, None, option_map};
ghost use Rattle.spec_exchange.specs.Table.{is_at};
ghost use Rattle.spec_exchange.specs.State.{Reply};
ghost use Rattle.spec_exchange.specs.Status.{success};
ghost use Rattle.spec_exchange.specs.Operations.{id_in, value_in};
ghost use Rattle.spec_exchange.specs.Client.{Client, end_session};
ghost use Rattle.spec_exchange.specs.ClientStep.{CloseChannels, Nothing, hear_act, hear_after};
ghost use Rattle.spec_exchange.specs.Settling.{heard, is_awaited as awaits};
ghost use Rattle.law_client.specs.table.Columns.{IsClientFirst, ops_of, standing_of};
ghost use Rattle.law_client.specs.table.Kept.{TableKept};
ghost use Rattle.client_values.specs.declared.operations.values.OpKind.TheVariants as kinds;
ghost use Rattle.client_values.specs.operations.Meaning.{op_of, reply_of};
ghost use Rattle.client_rows.specs.operation_rows.Rows.{row_at, owner, stands};
ghost use Rattle.client_rows.specs.open_marks.Marks.{IsHighest};
ghost use Rattle.client_values.specs.outcomes.Hearing.{heard_by, hearing_of};
ghost use Rattle.client_tables.specs.whole_table.Shown.{TableFits, ShowsTable};
ghost use Rattle.client_tables.specs.attached_opens.Known.{ShowsOpened};
ghost use Rattle.client_tables.specs.attached_opens.Opens.{FitsOpens, ShowsAttached};
ghost use Rattle.client_tables.specs.attached_opens.Places.{KeepsPlaces};
ghost use Rattle.client_steps.specs.unsent.Ascending.{Ascends};
ghost use Rattle.client_steps.specs.responses.Reading.{ResponseReads, response_ends, heard_then};

use crate::answer_at;
use crate::cutting::{Opened, end_table};
use crate::hearing::settle_heard;
use crate::open_updates::join_at;
use client_tables::{Attached, Table};
use client_values::{Asked, Hearing, OpKind, OpReply, weigh};

/// A response, as far as a client looks at it.
#[derive(Drop)]
pub struct Response {
    pub status: u32,
    /// Of a success of the operation itself, what its body says; none where that doesn't read as the operation's. Of any other response it
    /// isn't looked at.
    pub reply: Option<OpReply>,
    /// The FileId that the body names, whatever the status; 0 where it isn't the body of a create.
    pub file: u128,
}

fn is_on(outstanding: Option<u8>, channel: u8) -> bool
    ensures { result ≡ is_at channel outstanding }
{
    match outstanding {
        Some(on) => on == channel,
        None => false,
    }
}

fn is_such(asks: bool, asking: bool) -> bool
    ensures { result ≡ (if asks then asking else not asking) }
{
    if asks { asking } else { !asking }
}

fn stands_at(table: &Table, index: usize) -> bool
    requires { index < length table.now.rows.items }
    ensures { result ≡ stands table.now.rows.items index }
{
    table.rows[index].unsettled
}

/// Whether what is outstanding of an operation is this copy of it, or this request in its place.
fn is_out_so(table: &Table, channel: u8, index: usize, asking: bool) -> bool
    requires { index < length table.now.rows.items }
    ensures { result ≡ (is_at channel (row_at table.now.rows.items index).outstanding_on
        && (if (row_at table.now.rows.items index).asking then asking else not asking)) }
{
    is_on(table.rows[index].outstanding_on, channel) && is_such(table.rows[index].asking, asking)
}

fn has_row(table: &Table, index: usize) -> bool
    ensures { result ≡ nat_lt index (length table.now.rows.items) }
{
    index < table.rows.len()
}

/// Whether a response to an operation on this channel, or to a request in its place, is awaited.
pub fn is_awaited(table: &Table, channel: u8, index: usize, asking: bool) -> bool
    ensures inside { result ≡ true → (0 < index) × (index < length table.now.rows.items) × (stands table.now.rows.items index ≡ true) }
    ensures told { (c : Client) → ShowsTable table.now c → TableKept c → result ≡ awaits c channel index asking }
{
    if index == 0 {
        return false;
    }
    if !has_row(table, index) {
        return false;
    }
    if !stands_at(table, index) {
        return false;
    }
    is_out_so(table, channel, index, asking)
}

fn sequence_of(table: &Table, index: usize) -> u16
    requires { index < length table.now.rows.items }
    ensures { result ≡ (row_at table.now.rows.items index).sequence }
{
    table.rows[index].sequence
}

fn is_unanswered(table: &Table, index: usize) -> bool
    requires { index < length table.now.rows.items }
    ensures { result ≡ (row_at table.now.rows.items index).unanswered }
{
    table.rows[index].unanswered
}

fn weigh_op(
    ops: &[OpKind],
    place: usize,
    asked: Asked,
    status: u32,
    reply: Option<OpReply>,
) -> Hearing
    requires { place < length ops.now }
    ensures { hearing_of result ≡ heard_by (op_of (slice_index_or ops.now place (kinds.Close 0))) asked.asking
        asked.unanswered asked.is_older
        status (option_map reply_of reply) }
{
    weigh(&ops[place], asked, status, reply)
}

/// What hearing a response to an operation comes to.
fn weigh_at(
    table: &Table,
    index: usize,
    asking: bool,
    status: u32,
    reply: Option<OpReply>,
) -> Hearing
    requires fits { TableFits table.now }
    requires above { 0 < index }
    requires within { index < length table.now.rows.items }
    ensures { (c : Client) (r : Reply) → ShowsTable table.now c → r.status ≡ status
        → (r.status ≡ success → asking ≡ false → option_map reply_of reply ≡ value_in (c.op index) r.body)
        → hearing_of result ≡ heard c index asking r }
{
    let sequence = sequence_of(table, index);
    let is_older = table.session.is_behind(sequence);
    let unanswered = is_unanswered(table, index);
    let asked = Asked {
        asking,
        unanswered,
        is_older,
    };
    weigh_op(&table.ops, index - 1, asked, status, reply)
}

/// The session ends.
fn end_here(table: &mut Table)
    requires fits { TableFits table.old }
    ensures fits { TableFits table.new }
    ensures places { KeepsPlaces table.old.rows.items table.new.rows.items }
    ensures shown { (c : Client) → ShowsTable table.old c → TableKept c → ShowsTable table.new (end_session c) }
{
    table.session.end();
    end_table(table);
}

/// What hearing a response came to is done; nothing is outstanding of the operation any more. True where the session ended.
fn carry_out(
    table: &mut Table,
    attached: &mut [Attached],
    opened: &mut [Opened],
    later: &[u32],
    index: usize,
    last: u32,
    asking: bool,
    status: u32,
    file: u128,
    hearing: Hearing,
) -> bool
    requires fits { TableFits table.old }
    requires opens { FitsOpens table.old.rows.items attached.old }
    requires known { length opened.old ≡ length attached.old }
    requires later { Ascends table.old.rows.items later.now }
    requires above { 0 < index }
    requires within { index < length table.old.rows.items }
    requires unsettled { stands table.old.rows.items index ≡ true }
    requires last { IsHighest (owner table.old.rows.items) (λ h. true) (owner table.old.rows.items index)
        (length table.old.rows.items) last }
    ensures fits { TableFits table.new }
    ensures opens { FitsOpens table.new.rows.items attached.new }
    ensures count { length attached.new ≡ length attached.old }
    ensures known { length opened.new ≡ length opened.old }
    ensures places { KeepsPlaces table.old.rows.items table.new.rows.items }
    ensures shown { (c : Client) (r : Reply) (place : ℕ) → ShowsTable table.old c → ShowsAttached table.old.rows.items attached.old c
        → ShowsOpened table.old.rows.items opened.old c → c.live ≡ true → TableKept c → r.status ≡ status → file ≡ id_in r.body
        → IsClientFirst (ops_of c) (standing_of c) index → c.outstanding_on index ≡ None
        → TableKept (heard_then c index asking r place (hearing_of hearing))
        → ShowsTable table.new (heard_then c index asking r place (hearing_of hearing))
        × ShowsAttached table.new.rows.items attached.new (heard_then c index asking r place (hearing_of hearing))
        × ShowsOpened table.new.rows.items opened.new (heard_then c index asking r place (hearing_of hearing)) }
    ensures told { result ≡ response_ends (hearing_of hearing) }
{
    match hearing {
        Hearing::GoesAgain => false,
        Hearing::Attaches => {
            join_at(table, attached, index, last);
            false
        }
        Hearing::EndsSession => {
            end_here(table);
            true
        }
        Hearing::Settles(outcome) => {
            settle_heard(
                table, attached, opened, later, index, last, outcome, asking, status, file,
            );
            false
        }
    }
}

/// The response to an operation, or to the request to attach its open in its place (`asking`). One that isn't awaited on this channel
/// changes nothing. `later`: by operation, the next higher one of its open; `last`: the highest of this one's open. True where the session
/// ended, and all connections are to be closed.
pub fn hear(
    table: &mut Table,
    attached: &mut [Attached],
    opened: &mut [Opened],
    later: &[u32],
    channel: u8,
    index: usize,
    last: u32,
    asking: bool,
    response: Response,
) -> bool
    requires fits { TableFits table.old }
    requires opens { FitsOpens table.old.rows.items attached.old }
    requires known { length opened.old ≡ length attached.old }
    requires later { Ascends table.old.rows.items later.now }
    requires last { 0 < index → index < length table.old.rows.items
        → IsHighest (owner table.old.rows.items) (λ h. true) (owner table.old.rows.items index) (length table.old.rows.items) last }
    ensures fits { TableFits table.new }
    ensures opens { FitsOpens table.new.rows.items attached.new }
    ensures count { length attached.new ≡ length attached.old }
    ensures known { length opened.new ≡ length opened.old }
    ensures places { KeepsPlaces table.old.rows.items table.new.rows.items }
    ensures shown { (c : Client) (r : Reply) (place : ℕ) → ShowsTable table.old c → ShowsAttached table.old.rows.items attached.old c
        → ShowsOpened table.old.rows.items opened.old c → TableKept c → ResponseReads response c index asking r
        → ShowsTable table.new (hear_after c channel index asking r place)
        × ShowsAttached table.new.rows.items attached.new (hear_after c channel index asking r place)
        × ShowsOpened table.new.rows.items opened.new (hear_after c channel index asking r place) }
    ensures told { (c : Client) (r : Reply) → ShowsTable table.old c → TableKept c → ResponseReads response c index asking r
        → hear_act c channel index asking r ≡ (if result then CloseChannels else Nothing) }
{
    if !is_awaited(table, channel, index, asking) {
        return false;
    }
    let Response {
        status,
        reply,
        file,
    } = response;
    let hearing = weigh_at(table, index, asking, status, reply);
    // Before the rest: the end of a session would else count the copy that was answered as a lost one.
    answer_at(table, index);
    carry_out(
        table, attached, opened, later, index, last, asking, status, file, hearing,
    )
}
