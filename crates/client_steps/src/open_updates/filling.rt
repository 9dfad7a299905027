// A lock slot met DISK_FULL.
ghost use Rattle.std.specs.Prelude.{◌≡◌, ℕ, ◌<◌, ◌≤◌, ◌&&◌, nat_le, nat_lt, true, false, List, length, vec_capacity};
ghost use Rattle.spec_exchange.specs.Operations.{is_lock};
ghost use Rattle.spec_exchange.specs.Client.{Client, create_for};
ghost use Rattle.spec_exchange.specs.Settling.{noted_full};
ghost use Rattle.spec_exchange.specs.Status.{disk_full};
ghost use Rattle.client_rows.specs.declared.operation_rows.row.Row.{Row as Rowed};
ghost use Rattle.client_rows.specs.operation_rows.Rows.{row_at};
ghost use Rattle.client_rows.specs.operation_rows.Slots.{slot_at};
ghost use Rattle.client_rows.specs.lock_slots.Shown.{ShowsSlots};
ghost use Rattle.client_tables.specs.whole_table.Shown.{TableFits, ShowsTable};
ghost use Rattle.client_tables.specs.declared.attached_opens.opened.Opened.{Opened as Known};
ghost use Rattle.client_tables.specs.attached_opens.Known.{ShowsOpened};
ghost use Rattle.client_tables.specs.attached_opens.Opens.{FitsOpens, ShowsAttached};
ghost use Rattle.client_steps.specs.open_updates.Columns.{filled_now};

use client_rows::{Slot, fill_slot};
use client_tables::{Attached, Table};

/// A slot isn't taken again.
fn fill_in(slots: &mut Vec<Slot>, slot: u8)
    requires above { 0 < slot }
    requires within { slot ≤ length slots.old.items }
    ensures room { vec_capacity slots.new ≡ vec_capacity slots.old }
    ensures count { length slots.new.items ≡ length slots.old.items }
    ensures users { (place : ℕ) → (slot_at slots.new.items place).user ≡ (slot_at slots.old.items place).user }
    ensures shown { (c : Client) (g session : ℕ) (rows : List Rowed) → is_lock (c.op g) ≡ true → c.slot_of g ≡ slot
        → ShowsSlots rows slots.old.items session c (create_for c g)
        → ShowsSlots rows slots.new.items session (noted_full c g false disk_full) (create_for c g) }
{
    fill_slot(slots, slot);
}

/// Whether a slot is one of those that were used.
fn is_used(own: &Attached, slot: u8) -> bool
    ensures { result ≡ (nat_lt 0 slot && nat_le slot (length own.now.slots.items)) }
{
    0 < slot && slot as usize <= own.slots.len()
}

/// A slot isn't taken again, where it is one of those that were used.
fn fill_own(own: &mut Attached, slot: u8)
    ensures session { own.new.session ≡ own.old.session }
    ensures locks { own.new.locks ≡ own.old.locks }
    ensures room { vec_capacity own.new.slots ≡ vec_capacity own.old.slots }
    ensures count { length own.new.slots.items ≡ length own.old.slots.items }
    ensures users { (place : ℕ) → (slot_at own.new.slots.items place).user ≡ (slot_at own.old.slots.items place).user }
    ensures shown { (c : Client) (g session : ℕ) (rows : List Rowed) → is_lock (c.op g) ≡ true → c.slot_of g ≡ slot
        → (0 < slot → slot ≤ length own.old.slots.items) → ShowsSlots rows own.old.slots.items session c (create_for c g)
        → ShowsSlots rows own.new.slots.items session (filled_now c g) (create_for c g) }
{
    if is_used(own, slot) {
        fill_in(&mut own.slots, slot);
    }
}

fn open_of(table: &Table, index: usize) -> usize
    requires { index < length table.now.rows.items }
    ensures { result ≡ (row_at table.now.rows.items index).«open» }
{
    table.rows[index].open as usize
}

fn slot_of(table: &Table, index: usize) -> u8
    requires { index < length table.now.rows.items }
    ensures { result ≡ (row_at table.now.rows.items index).slot }
{
    table.rows[index].slot
}

/// The slot of a lock that met DISK_FULL isn't taken again.
pub fn fill_at(table: &Table, attached: &mut [Attached], index: usize)
    requires opens { FitsOpens table.now.rows.items attached.old }
    requires above { 0 < index }
    requires within { index < length table.now.rows.items }
    ensures opens { FitsOpens table.now.rows.items attached.new }
    ensures count { length attached.new ≡ length attached.old }
    ensures shown { (c : Client) (opened : List Known) → TableFits table.now → ShowsTable table.now c
        → ShowsAttached table.now.rows.items attached.old c → ShowsOpened table.now.rows.items opened c → is_lock (c.op index) ≡ true
        → ShowsAttached table.now.rows.items attached.new (filled_now c index) }
{
    let at = open_of(table, index);
    let slot = slot_of(table, index);
    fill_own(&mut attached[at], slot);
}
