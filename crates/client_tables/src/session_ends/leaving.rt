// How operations settle with their session.
ghost use Rattle.std.specs.Prelude.{◌≡◌, ℕ, ◌+◌, ◌-◌, ◌<◌, ◌≤◌, not, ◌&&◌, ◌||◌, false, List, length};
ghost use Rattle.spec_exchange.specs.Operations.{is_create, is_unsettled, persists};
ghost use Rattle.spec_exchange.specs.Client.{Client, end_session, plain_after_end};
ghost use Rattle.law_client.specs.table.Kept.{TableKept};
ghost use Rattle.client_rows.specs.operation_rows.Rows.{row_at, stands, owner, kind};
ghost use Rattle.client_rows.specs.operation_rows.Holding.{IsSafe};
ghost use Rattle.client_rows.specs.operation_rows.Choosing.{RowCounts};
ghost use Rattle.client_rows.specs.Shown.{ShowsRows};
ghost use Rattle.client_tables.specs.cuts.Cutting.{end_all};
ghost use Rattle.client_tables.specs.settling.Shown.{AreSettledBelow, GoesSettled, ShowsValues, op_at};
ghost use Rattle.client_rows.specs.open_marks.Marks.{is_create_kind};
ghost use Rattle.client_tables.specs.session_ends.Ending.{AreEndingsOwned, ended_below, settled_or_left};

use crate::session_ends::detaching::detach_from;
use crate::settling::settle_as;
use base_lists::{Prices, Watchers};
use client_rows::Row;
use client_values::{Kind, OpKind, Outcome, Why};

fn is_create(kind: Kind) -> bool
    ensures { result ≡ is_create_kind kind }
{
    match kind {
        Kind::Create => true,
        _ => false,
    }
}

fn is_create_at(rows: &[Row], index: usize) -> bool
    requires { index < length rows.now }
    ensures { result ≡ is_create_kind (kind rows.now index) }
{
    is_create(rows[index].kind)
}

/// The create whose open an operation is on.
fn create_of(rows: &[Row], index: usize) -> u32
    requires { index < length rows.now }
    ensures { result ≡ owner rows.now index }
{
    rows[index].create
}

/// Whether an operation went out itself.
fn was_sent(rows: &[Row], index: usize) -> bool
    requires { index < length rows.now }
    ensures { result ≡ (row_at rows.now index).sent }
{
    rows[index].sent
}

/// Whether an operation is unsettled and never went out itself.
fn is_unsent(rows: &[Row], index: usize) -> bool
    requires { index < length rows.now }
    ensures { result ≡ (stands rows.now index && not (row_at rows.now index).sent) }
{
    rows[index].unsettled && !rows[index].sent
}

/// How an operation of a plain open settles with its session; none where neither it nor its create went out.
fn lost_as(rows: &[Row], index: usize, number: u32) -> Option<Outcome>
    requires within { index < length rows.now }
    requires owned { owner rows.now index < length rows.now }
    ensures { (c : Client) → c.sent index ≡ (row_at rows.now index).sent → is_create (c.op index) ≡ is_create_kind (kind rows.now index)
        → (is_create (c.op index) ≡ false
        → (is_unsettled (c.outcome (owner rows.now index)) && not (c.sent (owner rows.now index)))
        ≡ (stands rows.now (owner rows.now index) && not (row_at rows.now (owner rows.now index)).sent))
        → c.session_number ≡ number → plain_after_end c index (owner rows.now index) ≡ settled_or_left result }
{
    let create = create_of(rows, index);
    if was_sent(rows, index) {
        return Some(Outcome::Unknown(Why::SessionLost(number)));
    }
    if is_create_at(rows, index) {
        return None;
    }
    if is_unsent(rows, create as usize) {
        return None;
    }
    Some(Outcome::NoOpen(create))
}

/// Whether the open of a create outlives its session.
fn persists_at(ops: &[OpKind], create: u32) -> bool
    requires above { 0 < create }
    requires within { create ≤ length ops.now }
    ensures { result ≡ persists (op_at ops.now create) }
{
    ops[create as usize - 1].persists()
}

/// Whether the end of the session leaves an operation as it is: a settled one, and one of an open that outlives it.
fn is_left(rows: &[Row], ops: &[OpKind], index: usize) -> bool
    requires within { index < length rows.now }
    requires above { 0 < owner rows.now index }
    requires owned { owner rows.now index ≤ length ops.now }
    ensures { result ≡ (not (stands rows.now index) || persists (op_at ops.now (owner rows.now index))) }
{
    if !rows[index].unsettled {
        return true;
    }
    persists_at(ops, create_of(rows, index))
}

/// An operation settles with the session, or stays.
fn leave_one(
    rows: &mut [Row],
    prices: &mut Prices,
    watchers: &mut Watchers,
    settled: &mut [Outcome],
    ops: &[OpKind],
    index: usize,
    number: u32,
)
    requires above { 0 < index }
    requires within { index < length rows.old }
    requires owned { AreEndingsOwned rows.old }
    requires counted { length settled.old ≡ length rows.old - 1 }
    requires ops_counted { length ops.now ≡ length rows.old - 1 }
    requires counts { RowCounts rows.old prices.old watchers.old }
    ensures counted { length settled.new ≡ length settled.old }
    ensures settles { GoesSettled rows.old rows.new }
    ensures counts { RowCounts rows.new prices.new watchers.new }
    ensures safe { (holders : List ℕ) → IsSafe rows.old holders → IsSafe rows.new holders }
    ensures shown { (c : Client) (holders : List ℕ) → TableKept c → c.session_number ≡ number → IsSafe rows.old holders
        → ShowsValues rows.old ops.now settled.old c.taken c.op (ended_below c index).outcome
        → ShowsRows rows.old holders prices.old watchers.old (ended_below c index)
        → ShowsRows rows.new holders prices.new watchers.new (ended_below c (index + 1))
        × ShowsValues rows.new ops.now settled.new c.taken c.op (ended_below c (index + 1)).outcome }
{
    if is_left(rows, ops, index) {
        return;
    }
    match lost_as(rows, index, number) {
        Some(outcome) => settle_as(rows, prices, watchers, settled, index, outcome),
        None => {}
    }
}

/// The session with this number ended, and nothing is outstanding any more: what hung on a plain open settles, from one operation
/// on, below which all are settled; and all else costs what it does without a session (MS-SMB2 3.2.7.1, 3.2.4.4).
pub fn end_from(
    rows: &mut [Row],
    prices: &mut Prices,
    watchers: &mut Watchers,
    settled: &mut [Outcome],
    ops: &[OpKind],
    from: usize,
    number: u32,
)
    requires above { 0 < from }
    requires owned { AreEndingsOwned rows.old }
    requires counted { length settled.old ≡ length rows.old - 1 }
    requires ops_counted { length ops.now ≡ length rows.old - 1 }
    requires counts { RowCounts rows.old prices.old watchers.old }
    requires below { AreSettledBelow rows.old from }
    ensures counted { length settled.new ≡ length settled.old }
    ensures settles { GoesSettled rows.old rows.new }
    ensures counts { RowCounts rows.new prices.new watchers.new }
    ensures safe { (holders : List ℕ) → IsSafe rows.old holders → IsSafe rows.new holders }
    ensures shown { (c : Client) (holders : List ℕ) → TableKept c → c.session_number ≡ number → IsSafe rows.old holders
        → ShowsValues rows.old ops.now settled.old c.taken c.op c.outcome
        → ShowsRows rows.old holders prices.old watchers.old (end_all c)
        → ShowsRows rows.new holders prices.new watchers.new (end_session c)
        × ShowsValues rows.new ops.now settled.new c.taken c.op (end_session c).outcome }
{
    detach_from(rows, prices, watchers, from);
    let mut at = from;
    // Upwards: what settles has to wait for nothing, and only lower ones hold it up.
    while at < rows.len() {
        leave_one(rows, prices, watchers, settled, ops, at, number);
        at += 1;
    }
}
