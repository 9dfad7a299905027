// One row changes.
ghost use Rattle.std.specs.Prelude.{◌≡◌, ℕ, ◌+◌, ◌<◌, ◌≤◌, true, false, length, vec_len, vec_capacity};
ghost use Rattle.spec_exchange.specs.Operations.{is_lock};
ghost use Rattle.spec_exchange.specs.Client.{Client, asked, begun, create_for, outstanding};
ghost use Rattle.spec_exchange.specs.Settling.{answered};
ghost use Rattle.client_rows.specs.operation_rows.Rows.{row_at};
ghost use Rattle.client_rows.specs.Shown.{KeepsRow};
ghost use Rattle.client_rows.specs.lock_slots.Shown.{AreUsed, HaveRows, ShowsSlots};
ghost use Rattle.client_tables.specs.whole_table.Shown.{TableFits, ShowsTable};

use crate::refreshing::refresh;
use client_rows::{Slot, answer, ask};
use client_tables::{Table, send_again, send_first, send_lock, send_lock_again};

/// A request to attach its open goes out in an operation's place.
pub fn ask_at(table: &mut Table, index: usize, channel: u8)
    requires fits { TableFits table.old }
    requires within { index < length table.old.rows.items }
    ensures fits { TableFits table.new }
    ensures session { table.new.session ≡ table.old.session }
    ensures place { KeepsRow table.old.rows.items table.new.rows.items index }
    ensures shown { (c : Client) → ShowsTable table.old c → ShowsTable table.new (asked c channel index) }
{
    ask(
        &mut table.rows,
        &mut table.prices,
        &table.watchers,
        index,
        channel,
    );
    refresh(&table.rows, &mut table.out, index);
}

/// What was outstanding of an operation is answered.
pub fn answer_at(table: &mut Table, index: usize)
    requires fits { TableFits table.old }
    requires within { index < length table.old.rows.items }
    ensures fits { TableFits table.new }
    ensures session { table.new.session ≡ table.old.session }
    ensures place { KeepsRow table.old.rows.items table.new.rows.items index }
    ensures shown { (c : Client) → ShowsTable table.old c → ShowsTable table.new (answered c index) }
{
    answer(&mut table.rows, &mut table.prices, &table.watchers, index);
    refresh(&table.rows, &mut table.out, index);
}

/// An operation that is no lock goes out for the first time.
fn send_first_at(table: &mut Table, index: usize, channel: u8)
    requires fits { TableFits table.old }
    requires within { index < length table.old.rows.items }
    ensures fits { TableFits table.new }
    ensures session { table.new.session ≡ table.old.session }
    ensures place { KeepsRow table.old.rows.items table.new.rows.items index }
    ensures shown { (c : Client) (slot : ℕ) → ShowsTable table.old c → is_lock (c.op index) ≡ false → c.sent index ≡ false
        → ShowsTable table.new (outstanding (begun c index slot) channel index) }
{
    send_first(
        &mut table.rows,
        &mut table.prices,
        &table.watchers,
        &table.session,
        index,
        channel,
    );
    refresh(&table.rows, &mut table.out, index);
}

/// An operation that is no lock goes out again.
fn send_again_at(table: &mut Table, index: usize, channel: u8)
    requires fits { TableFits table.old }
    requires within { index < length table.old.rows.items }
    ensures fits { TableFits table.new }
    ensures session { table.new.session ≡ table.old.session }
    ensures place { KeepsRow table.old.rows.items table.new.rows.items index }
    ensures shown { (c : Client) (slot : ℕ) → ShowsTable table.old c → is_lock (c.op index) ≡ false → c.sent index ≡ true
        → ShowsTable table.new (outstanding (begun c index slot) channel index) }
{
    send_again(
        &mut table.rows,
        &mut table.prices,
        &table.watchers,
        &table.session,
        index,
        channel,
    );
    refresh(&table.rows, &mut table.out, index);
}

/// A lock goes out for the first time, with a slot of its open.
pub fn send_lock_at(table: &mut Table, slots: &mut Vec<Slot>, index: usize, slot: u8, channel: u8)
    requires fits { TableFits table.old }
    requires within { index < length table.old.rows.items }
    requires users { HaveRows table.old.rows.items slots.old.items }
    requires above { 0 < slot }
    requires slot { slot ≤ length slots.old.items + 1 }
    requires room { length slots.old.items < slot → vec_len slots.old < vec_capacity slots.old }
    ensures fits { TableFits table.new }
    ensures session { table.new.session ≡ table.old.session }
    ensures place { KeepsRow table.old.rows.items table.new.rows.items index }
    ensures users { HaveRows table.new.rows.items slots.new.items }
    ensures positive { 0 < index → AreUsed slots.old.items → AreUsed slots.new.items }
    ensures most { (n : ℕ) → slot ≤ n → length slots.old.items ≤ n → length slots.new.items ≤ n }
    ensures capacity { vec_capacity slots.new ≡ vec_capacity slots.old }
    ensures shown { (c : Client) → ShowsTable table.old c
        → ShowsSlots table.old.rows.items slots.old.items c.session_number c (create_for c index) → 0 < index
        → is_lock (c.op index) ≡ true → c.sent index ≡ false → ShowsTable table.new (outstanding (begun c index slot) channel index) }
    ensures slots { (c : Client) → ShowsTable table.old c
        → ShowsSlots table.old.rows.items slots.old.items c.session_number c (create_for c index) → 0 < index
        → is_lock (c.op index) ≡ true → c.sent index ≡ false
        → ShowsSlots table.new.rows.items slots.new.items c.session_number (outstanding (begun c index slot) channel index)
        (create_for c index) }
{
    send_lock(
        &mut table.rows,
        &mut table.prices,
        &table.watchers,
        slots,
        &table.session,
        index,
        slot,
        channel,
    );
    refresh(&table.rows, &mut table.out, index);
}

/// A lock that took a slot goes out again.
pub fn send_lock_again_at(table: &mut Table, slots: &mut Vec<Slot>, index: usize, channel: u8)
    requires fits { TableFits table.old }
    requires within { index < length table.old.rows.items }
    requires users { HaveRows table.old.rows.items slots.old.items }
    requires above { 0 < (row_at table.old.rows.items index).slot }
    requires slot { (row_at table.old.rows.items index).slot ≤ length slots.old.items }
    ensures fits { TableFits table.new }
    ensures session { table.new.session ≡ table.old.session }
    ensures place { KeepsRow table.old.rows.items table.new.rows.items index }
    ensures users { HaveRows table.new.rows.items slots.new.items }
    ensures positive { AreUsed slots.old.items → AreUsed slots.new.items }
    ensures slot_count { length slots.new.items ≡ length slots.old.items }
    ensures capacity { vec_capacity slots.new ≡ vec_capacity slots.old }
    ensures shown { (c : Client) (slot : ℕ) → ShowsTable table.old c → is_lock (c.op index) ≡ true → c.sent index ≡ true
        → ShowsTable table.new (outstanding (begun c index slot) channel index) }
    ensures slots { (c : Client) (slot : ℕ) → ShowsTable table.old c
        → ShowsSlots table.old.rows.items slots.old.items c.session_number c (create_for c index) → is_lock (c.op index) ≡ true
        → c.sent index ≡ true
        → ShowsSlots table.new.rows.items slots.new.items c.session_number (outstanding (begun c index slot) channel index)
        (create_for c index) }
{
    send_lock_again(
        &mut table.rows,
        &mut table.prices,
        &table.watchers,
        slots,
        &table.session,
        index,
        channel,
    );
    refresh(&table.rows, &mut table.out, index);
}

/// Whether an operation went out itself.
fn was_sent(table: &Table, index: usize) -> bool
    requires { index < length table.now.rows.items }
    ensures { result ≡ (row_at table.now.rows.items index).sent }
{
    table.rows[index].sent
}

/// An operation that is no lock goes out itself.
pub fn send_plain_at(table: &mut Table, index: usize, channel: u8)
    requires fits { TableFits table.old }
    requires within { index < length table.old.rows.items }
    ensures fits { TableFits table.new }
    ensures session { table.new.session ≡ table.old.session }
    ensures place { KeepsRow table.old.rows.items table.new.rows.items index }
    ensures shown { (c : Client) (slot : ℕ) → ShowsTable table.old c → is_lock (c.op index) ≡ false
        → ShowsTable table.new (outstanding (begun c index slot) channel index) }
{
    if was_sent(table, index) {
        send_again_at(table, index, channel);
        return;
    }
    send_first_at(table, index, channel);
}
