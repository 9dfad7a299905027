// An operation goes out itself.
ghost use Rattle.std.specs.Prelude.{◌≡◌, ℕ, ◌+◌, ◌<◌, ◌≤◌, ◌^◌, true, false, List, length, vec_len, vec_capacity};
ghost use Rattle.spec_exchange.specs.Operations.{is_firm, is_lock as locks};
ghost use Rattle.spec_exchange.specs.Client.{Client, again, begun, create_for, next_number, outstanding, take_slot as takes};
ghost use Rattle.client_rows.specs.session_state.Shown.{ClientShowsSession};
ghost use Rattle.client_rows.specs.lock_slots.Shown.{AreUsed, HaveRows, ShowsSlots};
ghost use Rattle.client_rows.specs.declared.operation_rows.slots.Slot.{Slot as Slotted};
ghost use Rattle.client_rows.specs.declared.operation_rows.row.Row.{Row as Rowed};
ghost use Rattle.client_rows.specs.operation_rows.Rows.{row_at};
ghost use Rattle.client_rows.specs.operation_rows.Slots.{slot_at};
ghost use Rattle.client_rows.specs.operation_rows.Holding.{IsSafe};
ghost use Rattle.client_rows.specs.operation_rows.Choosing.{RowCounts};
ghost use Rattle.client_rows.specs.Shown.{KeepsRow, ShowsRows};

use base_lists::{Prices, Watchers};
use client_rows::{Row, Session, Slot, put_row, take_unused, take_used, try_again};

/// A lock takes a slot, which was used or is the one behind those; the answer is its number there.
fn take_slot(rows: &[Row], slots: &mut Vec<Slot>, slot: u8, index: usize) -> u8
    requires above { 0 < slot }
    requires within { slot ≤ length slots.old.items + 1 }
    requires room { length slots.old.items < slot → vec_len slots.old < vec_capacity slots.old }
    requires users { HaveRows rows.now slots.old.items }
    requires taken { index < length rows.now }
    requires few { length rows.now < 2 ^ 32 }
    ensures shown { (c : Client) (session : ℕ) → ShowsSlots rows.now slots.old.items session c (create_for c index)
        → is_firm (c.outcome index) ≡ (row_at rows.now index).firm
        → ShowsSlots rows.now slots.new.items session (takes c index slot) (create_for c index) }
    ensures number { (c : Client) (session : ℕ) → ShowsSlots rows.now slots.old.items session c (create_for c index)
        → ((h : ℕ) → c.number_of h ≡ (row_at rows.now h).slot_number)
        → result ≡ next_number c (c.slot_user (create_for c index) slot) }
    ensures most { (n : ℕ) → slot ≤ n → length slots.old.items ≤ n → length slots.new.items ≤ n }
    ensures capacity { vec_capacity slots.new ≡ vec_capacity slots.old }
    ensures users { HaveRows rows.now slots.new.items }
    ensures positive { 0 < index → AreUsed slots.old.items → AreUsed slots.new.items }
{
    if slot as usize > slots.len() {
        take_unused(slots, index as u32);
        return 0;
    }
    take_used(rows, slots, slot, index as u32)
}

/// A lock goes out for the first time, with a slot.
pub fn send_lock(
    rows: &mut [Row],
    prices: &mut Prices,
    watchers: &Watchers,
    slots: &mut Vec<Slot>,
    session: &Session,
    index: usize,
    slot: u8,
    channel: u8,
)
    requires within { index < length rows.old }
    requires counts { RowCounts rows.old prices.old watchers.now }
    requires users { HaveRows rows.old slots.old.items }
    requires above { 0 < slot }
    requires slot { slot ≤ length slots.old.items + 1 }
    requires room { length slots.old.items < slot → vec_len slots.old < vec_capacity slots.old }
    ensures count { length rows.new ≡ length rows.old }
    ensures place { KeepsRow rows.old rows.new index }
    ensures counts { RowCounts rows.new prices.new watchers.now }
    ensures safe { (holders : List ℕ) → IsSafe rows.old holders → IsSafe rows.new holders }
    ensures most { (n : ℕ) → slot ≤ n → length slots.old.items ≤ n → length slots.new.items ≤ n }
    ensures capacity { vec_capacity slots.new ≡ vec_capacity slots.old }
    ensures users { HaveRows rows.new slots.new.items }
    ensures positive { 0 < index → AreUsed slots.old.items → AreUsed slots.new.items }
    ensures shown { (c : Client) (holders : List ℕ) → ShowsRows rows.old holders prices.old watchers.now c
        → ClientShowsSession session.now c
        → ShowsSlots rows.old slots.old.items c.session_number c (create_for c index) → 0 < index → locks (c.op index) ≡ true
        → c.sent index ≡ false → ShowsRows rows.new holders prices.new watchers.now (outstanding (begun c index slot) channel index) }
    ensures slots { (c : Client) (holders : List ℕ) → ShowsRows rows.old holders prices.old watchers.now c
        → ShowsSlots rows.old slots.old.items c.session_number c (create_for c index) → 0 < index → locks (c.op index) ≡ true
        → c.sent index ≡ false
        → ShowsSlots rows.new slots.new.items c.session_number (outstanding (begun c index slot) channel index) (create_for c index) }
{
    let number = take_slot(rows, slots, slot, index);
    let row = Row {
        sent: true,
        asking: false,
        outstanding_on: Some(channel),
        sequence: session.sequence(),
        slot,
        slot_number: number,
        ..rows[index]
    };
    put_row(rows, prices, watchers, index, row);
}

/// Another operation goes out for the first time.
pub fn send_first(
    rows: &mut [Row],
    prices: &mut Prices,
    watchers: &Watchers,
    session: &Session,
    index: usize,
    channel: u8,
)
    requires within { index < length rows.old }
    requires counts { RowCounts rows.old prices.old watchers.now }
    ensures count { length rows.new ≡ length rows.old }
    ensures place { KeepsRow rows.old rows.new index }
    ensures counts { RowCounts rows.new prices.new watchers.now }
    ensures safe { (holders : List ℕ) → IsSafe rows.old holders → IsSafe rows.new holders }
    ensures shown { (c : Client) (holders : List ℕ) (slot : ℕ) → ShowsRows rows.old holders prices.old watchers.now c
        → ClientShowsSession session.now c → locks (c.op index) ≡ false → c.sent index ≡ false
        → ShowsRows rows.new holders prices.new watchers.now (outstanding (begun c index slot) channel index) }
    ensures slots { (c : Client) (slots : List Slotted) (number create slot : ℕ) → ShowsSlots rows.old slots number c create
        → locks (c.op index) ≡ false → c.sent index ≡ false
        → ShowsSlots rows.new slots number (outstanding (begun c index slot) channel index) create }
{
    let row = Row {
        sent: true,
        asking: false,
        outstanding_on: Some(channel),
        sequence: session.sequence(),
        ..rows[index]
    };
    put_row(rows, prices, watchers, index, row);
}

/// The slot of a lock that goes out again isn't taken again in this session.
fn retry(rows: &[Row], slots: &mut Vec<Slot>, session: &Session, index: usize)
    requires taken { index < length rows.now }
    requires above { 0 < (row_at rows.now index).slot }
    requires within { (row_at rows.now index).slot ≤ length slots.old.items }
    ensures count { length slots.new.items ≡ length slots.old.items }
    ensures capacity { vec_capacity slots.new ≡ vec_capacity slots.old }
    ensures users { (place : ℕ) → (slot_at slots.new.items place).user ≡ (slot_at slots.old.items place).user }
    ensures shown { (c : Client) (lines : List Rowed) → ClientShowsSession session.now c → locks (c.op index) ≡ true
        → c.slot_of index ≡ (row_at rows.now index).slot
        → ShowsSlots lines slots.old.items c.session_number c (create_for c index)
        → ShowsSlots lines slots.new.items c.session_number (again c index) (create_for c index) }
{
    try_again(slots, rows[index].slot, session.number());
}

/// A lock that took a slot goes out again.
pub fn send_lock_again(
    rows: &mut [Row],
    prices: &mut Prices,
    watchers: &Watchers,
    slots: &mut Vec<Slot>,
    session: &Session,
    index: usize,
    channel: u8,
)
    requires within { index < length rows.old }
    requires counts { RowCounts rows.old prices.old watchers.now }
    requires users { HaveRows rows.old slots.old.items }
    requires above { 0 < (row_at rows.old index).slot }
    requires slot { (row_at rows.old index).slot ≤ length slots.old.items }
    ensures count { length rows.new ≡ length rows.old }
    ensures place { KeepsRow rows.old rows.new index }
    ensures counts { RowCounts rows.new prices.new watchers.now }
    ensures safe { (holders : List ℕ) → IsSafe rows.old holders → IsSafe rows.new holders }
    ensures capacity { vec_capacity slots.new ≡ vec_capacity slots.old }
    ensures users { HaveRows rows.new slots.new.items }
    ensures positive { AreUsed slots.old.items → AreUsed slots.new.items }
    ensures slot_count { length slots.new.items ≡ length slots.old.items }
    ensures shown { (c : Client) (holders : List ℕ) (slot : ℕ) → ShowsRows rows.old holders prices.old watchers.now c
        → ClientShowsSession session.now c → locks (c.op index) ≡ true → c.sent index ≡ true
        → ShowsRows rows.new holders prices.new watchers.now (outstanding (begun c index slot) channel index) }
    ensures slots { (c : Client) (holders : List ℕ) (slot : ℕ) → ShowsRows rows.old holders prices.old watchers.now c
        → ClientShowsSession session.now c → ShowsSlots rows.old slots.old.items c.session_number c (create_for c index)
        → locks (c.op index) ≡ true → c.sent index ≡ true
        → ShowsSlots rows.new slots.new.items c.session_number (outstanding (begun c index slot) channel index) (create_for c index) }
{
    retry(rows, slots, session, index);
    put_again(rows, prices, watchers, session, index, channel);
}

/// An operation that was sent is outstanding again.
fn put_again(
    rows: &mut [Row],
    prices: &mut Prices,
    watchers: &Watchers,
    session: &Session,
    index: usize,
    channel: u8,
)
    requires within { index < length rows.old }
    requires counts { RowCounts rows.old prices.old watchers.now }
    ensures count { length rows.new ≡ length rows.old }
    ensures place { KeepsRow rows.old rows.new index }
    ensures counts { RowCounts rows.new prices.new watchers.now }
    ensures safe { (holders : List ℕ) → IsSafe rows.old holders → IsSafe rows.new holders }
    ensures firm { (g : ℕ) → (row_at rows.new g).firm ≡ (row_at rows.old g).firm }
    ensures shown { (c : Client) (holders : List ℕ) → ShowsRows rows.old holders prices.old watchers.now c
        → ClientShowsSession session.now c
        → ShowsRows rows.new holders prices.new watchers.now (outstanding c channel index) }
{
    let raised = session.sequence();
    let row = Row {
        asking: false,
        outstanding_on: Some(channel),
        sequence: raised,
        ..rows[index]
    };
    put_row(rows, prices, watchers, index, row);
}

/// Another operation goes out again.
pub fn send_again(
    rows: &mut [Row],
    prices: &mut Prices,
    watchers: &Watchers,
    session: &Session,
    index: usize,
    channel: u8,
)
    requires within { index < length rows.old }
    requires counts { RowCounts rows.old prices.old watchers.now }
    ensures count { length rows.new ≡ length rows.old }
    ensures place { KeepsRow rows.old rows.new index }
    ensures counts { RowCounts rows.new prices.new watchers.now }
    ensures safe { (holders : List ℕ) → IsSafe rows.old holders → IsSafe rows.new holders }
    ensures shown { (c : Client) (holders : List ℕ) (slot : ℕ) → ShowsRows rows.old holders prices.old watchers.now c
        → ClientShowsSession session.now c → locks (c.op index) ≡ false → c.sent index ≡ true
        → ShowsRows rows.new holders prices.new watchers.now (outstanding (begun c index slot) channel index) }
    ensures slots { (c : Client) (slots : List Slotted) (number create slot : ℕ) → ShowsSlots rows.old slots number c create
        → locks (c.op index) ≡ false → c.sent index ≡ true
        → ShowsSlots rows.new slots number (outstanding (begun c index slot) channel index) create }
{
    put_again(rows, prices, watchers, session, index, channel);
}
