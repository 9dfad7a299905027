// A lock goes out itself.
ghost use Rattle.std.specs.Prelude.{◌≡◌, ℕ, ◌+◌, ◌<◌, ◌≤◌, ◌&&◌, ◌||◌, nat_le, nat_lt, true, length, vec_capacity};
ghost use Rattle.spec_exchange.specs.Operations.{is_lock};
ghost use Rattle.spec_exchange.specs.Client.{Client, begun, create_for, outstanding};
ghost use Rattle.client_rows.specs.operation_rows.Rows.{row_at};
ghost use Rattle.client_rows.specs.Shown.{KeepsRow};
ghost use Rattle.client_rows.specs.lock_slots.Shown.{AreUsed, HaveRows, ShowsSlots};
ghost use Rattle.client_tables.specs.whole_table.Shown.{TableFits, ShowsTable};
ghost use Rattle.client_steps.specs.sending.Slotted.{HasSlot};

use crate::{send_lock_again_at, send_lock_at};
use client_rows::Slot;
use client_tables::Table;

/// Whether an operation went out itself.
fn was_sent(table: &Table, index: usize) -> bool
    requires { index < length table.now.rows.items }
    ensures { result ≡ (row_at table.now.rows.items index).sent }
{
    table.rows[index].sent
}

/// Whether the slot that an operation took is one of these.
fn has_slot(table: &Table, slots: &Vec<Slot>, index: usize) -> bool
    requires { index < length table.now.rows.items }
    ensures { result ≡ (nat_lt 0 (row_at table.now.rows.items index).slot
        && nat_le (row_at table.now.rows.items index).slot (length slots.now.items)) }
{
    let slot = table.rows[index].slot;
    0 < slot && slot as usize <= slots.len()
}

/// Whether a slot was used, or there is room for the one behind those.
fn has_room(slots: &Vec<Slot>, slot: u8) -> bool
    ensures { result ≡ (nat_le slot (length slots.now.items) || nat_lt (length slots.now.items) (vec_capacity slots.now)) }
{
    slot as usize <= slots.len() || slots.len() < slots.capacity()
}

/// Whether a slot may be taken.
fn may_take(slots: &Vec<Slot>, slot: u8) -> bool
    ensures { result ≡ (nat_lt 0 slot
        && (nat_le slot (length slots.now.items) || nat_lt (length slots.now.items) (vec_capacity slots.now))) }
{
    0 < slot && has_room(slots, slot)
}

/// A lock goes out itself: for the first time, with a slot for which there is room, or again with the one that it took. Where it has none
/// it stays.
pub fn send_locking(table: &mut Table, slots: &mut Vec<Slot>, index: usize, slot: u8, channel: u8)
    requires fits { TableFits table.old }
    requires within { index < length table.old.rows.items }
    requires users { HaveRows table.old.rows.items slots.old.items }
    requires slot { slot ≤ length slots.old.items + 1 }
    ensures fits { TableFits table.new }
    ensures session { table.new.session ≡ table.old.session }
    ensures place { KeepsRow table.old.rows.items table.new.rows.items index }
    ensures users { HaveRows table.new.rows.items slots.new.items }
    ensures positive { 0 < index → AreUsed slots.old.items → AreUsed slots.new.items }
    ensures most { (n : ℕ) → slot ≤ n → length slots.old.items ≤ n → length slots.new.items ≤ n }
    ensures capacity { vec_capacity slots.new ≡ vec_capacity slots.old }
    ensures shown { (c : Client) → ShowsTable table.old c
        → ShowsSlots table.old.rows.items slots.old.items c.session_number c (create_for c index) → 0 < index
        → is_lock (c.op index) ≡ true → HasSlot c index slot (length slots.old.items) (vec_capacity slots.old)
        → ShowsTable table.new (outstanding (begun c index slot) channel index)
        × ShowsSlots table.new.rows.items slots.new.items c.session_number (outstanding (begun c index slot) channel index)
        (create_for c index) }
{
    if was_sent(table, index) {
        if has_slot(table, slots, index) {
            send_lock_again_at(table, slots, index, channel);
        }
        return;
    }
    if may_take(slots, slot) {
        send_lock_at(table, slots, index, slot, channel);
    }
}
