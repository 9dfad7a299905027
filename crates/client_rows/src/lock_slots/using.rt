// How slots are used.
ghost use Rattle.std.specs.Prelude.{◌≡◌, ℕ, ◌+◌, ◌%◌, ◌<◌, ◌≤◌, ◌==◌, ◌&&◌, not, Bool, true, false, List, [], length};
ghost use Rattle.std.specs.Prelude.{slice_set, vec_len, vec_capacity, IfSome};
ghost use Rattle.spec_exchange.specs.State.{Reply as Replied};
ghost use Rattle.spec_exchange.specs.Operations.{Op, Outcome, is_firm, is_lock};
ghost use Rattle.spec_exchange.specs.Client.{Client, Identity, again, begin_session, bind_channel, create_for, cut_channel};
ghost use Rattle.spec_exchange.specs.Client.{end_session, next_number, settle_no_slot, take_op, take_slot as takes};
ghost use Rattle.spec_exchange.specs.Settling.{answered, joined, noted_full, settle};
ghost use Rattle.spec_exchange.specs.Network.{new_client};
ghost use Rattle.spec_exchange.specs.Status.{disk_full};
ghost use Rattle.spec_exchange.specs.Schedules.{least_free};
ghost use Rattle.client_rows.specs.declared.operation_rows.row.Row.{Row as Rowed};
ghost use Rattle.client_rows.specs.declared.operation_rows.slots.Slot.{Slot as Slotted};
ghost use Rattle.client_rows.specs.operation_rows.Rows.{row_at};
ghost use Rattle.client_rows.specs.operation_rows.Slots.{slot_at};
ghost use Rattle.client_rows.specs.lock_slots.Shown.{AreUsed, HaveRows, IsSlotUnused, KeepsSlots, ShowsFirm, ShowsSlots};

use crate::operation_rows::{Row, Slot, least_free};

/// The least slot from 1 to 64 that a lock may take in a session. Those behind an open's slots were never used.
pub fn free_slot(rows: &[Row], slots: &[Slot], session: u32) -> Option<u8>
    requires few { length slots.now ≤ 64 }
    requires users { HaveRows rows.now slots.now }
    ensures shown { (c : Client) (create : ℕ) → 0 < session → ShowsSlots rows.now slots.now session c create
        → result ≡ least_free c create 1 64 }
    ensures within { IfSome result (λ slot. (0 < slot) × (slot ≤ length slots.now + 1)) }
    ensures few { IfSome result (λ slot. slot ≤ 64) }
{
    least_free(rows, slots, session)
}

/// A lock that goes out first takes one of the slots that were used; the answer is its number there.
pub fn take_used(rows: &[Row], slots: &mut [Slot], slot: u8, index: u32) -> u8
    requires above { 0 < slot }
    requires within { slot ≤ length slots.old }
    requires users { HaveRows rows.now slots.old }
    requires taken { index < length rows.now }
    ensures shown { (c : Client) (session : ℕ) → ShowsSlots rows.now slots.old session c (create_for c index)
        → is_firm (c.outcome index) ≡ (row_at rows.now index).firm
        → ShowsSlots rows.now slots.new session (takes c index slot) (create_for c index) }
    ensures number { (c : Client) (session create : ℕ) → ShowsSlots rows.now slots.old session c create
        → ((h : ℕ) → c.number_of h ≡ (row_at rows.now h).slot_number) → result ≡ next_number c (c.slot_user create slot) }
    ensures users { HaveRows rows.now slots.new }
    ensures positive { 0 < index → AreUsed slots.old → AreUsed slots.new }
    ensures count { length slots.new ≡ length slots.old }
{
    let place = slot as usize - 1;
    use_again(rows, slots, place, index)
}

/// A lock that goes out first takes the slot behind those that were used, for which there is room. Its number there is 0.
pub fn take_unused(slots: &mut Vec<Slot>, index: u32)
    requires room { vec_len slots.old < vec_capacity slots.old }
    ensures shown { (c : Client) (rows : List Rowed) (session : ℕ) → ShowsSlots rows slots.old.items session c (create_for c index)
        → is_firm (c.outcome index) ≡ (row_at rows index).firm
        → ShowsSlots rows slots.new.items session (takes c index (length slots.old.items + 1)) (create_for c index) }
    ensures number { (c : Client) (rows : List Rowed) (session create : ℕ) → ShowsSlots rows slots.old.items session c create
        → next_number c (c.slot_user create (length slots.old.items + 1)) ≡ 0 }
    ensures users { (rows : List Rowed) → HaveRows rows slots.old.items → index < length rows → HaveRows rows slots.new.items }
    ensures positive { 0 < index → AreUsed slots.old.items → AreUsed slots.new.items }
    ensures count { length slots.new.items ≡ length slots.old.items + 1 }
    ensures capacity { vec_capacity slots.new ≡ vec_capacity slots.old }
{
    slots.push_reserved(Slot {
        user: index,
        retried: 0,
        full: false,
    });
}

fn use_again(rows: &[Row], slots: &mut [Slot], place: usize, index: u32) -> u8
    requires within { place < length slots.old }
    requires user { (slot_at slots.old place).user < length rows.now }
    ensures slots { slots.new ≡ slice_set slots.old place (record (slot_at slots.old place) { user = index }) }
    ensures number { result ≡ ((row_at rows.now (slot_at slots.old place).user).slot_number + 1) % 16 }
{
    let user = slots[place].user;
    slots[place].user = index;
    number_behind(rows[user as usize].slot_number)
}

/// The number under which the next lock stands in a slot: 0, 1, to 15, and 0 again.
fn number_behind(number: u8) -> u8
    ensures { result ≡ (number + 1) % 16 }
{
    (number % 16 + 1) % 16
}

/// A lock goes out again in this session: its slot isn't taken again in it.
pub fn try_again(slots: &mut [Slot], slot: u8, session: u32)
    requires above { 0 < slot }
    requires within { slot ≤ length slots.old }
    ensures count { length slots.new ≡ length slots.old }
    ensures users { (place : ℕ) → (slot_at slots.new place).user ≡ (slot_at slots.old place).user }
    ensures shown { (c : Client) (g : ℕ) (rows : List Rowed) → is_lock (c.op g) ≡ true → c.slot_of g ≡ slot
        → ShowsSlots rows slots.old session c (create_for c g) → ShowsSlots rows slots.new session (again c g) (create_for c g) }
{
    let place = slot as usize - 1;
    retry_at(slots, place, session);
}

fn retry_at(slots: &mut [Slot], place: usize, session: u32)
    requires { place < length slots.old }
    ensures { slots.new ≡ slice_set slots.old place (record (slot_at slots.old place) { retried = session }) }
{
    slots[place].retried = session;
}

/// A lock met DISK_FULL: its slot isn't taken again.
pub fn fill_slot(slots: &mut [Slot], slot: u8)
    requires above { 0 < slot }
    requires within { slot ≤ length slots.old }
    ensures count { length slots.new ≡ length slots.old }
    ensures users { (place : ℕ) → (slot_at slots.new place).user ≡ (slot_at slots.old place).user }
    ensures shown { (c : Client) (g session : ℕ) (rows : List Rowed) → is_lock (c.op g) ≡ true → c.slot_of g ≡ slot
        → ShowsSlots rows slots.old session c (create_for c g)
        → ShowsSlots rows slots.new session (noted_full c g false disk_full) (create_for c g) }
{
    let place = slot as usize - 1;
    fill_at(slots, place);
}

fn fill_at(slots: &mut [Slot], place: usize)
    requires { place < length slots.old }
    ensures { slots.new ≡ slice_set slots.old place (record (slot_at slots.old place) { full = true }) }
{
    slots[place].full = true;
}

/// An open's slots over everything else that a client does. A client that begins has none; what is done to the slots of one open
/// leaves those of the others, a new session leaves all, and so does all that neither takes nor tries a slot nor meets DISK_FULL.
pub fn slots_law()
    ensures taken { (rows : List Rowed) (slots : List Slotted) (session create : ℕ) (c : Client) (g i : ℕ)
        → (create ≡ create_for c g → ⊥) → ShowsSlots rows slots session c create
        → ShowsSlots rows slots session (takes c g i) create }
    ensures tried { (rows : List Rowed) (slots : List Slotted) (session create : ℕ) (c : Client) (g : ℕ)
        → (create ≡ create_for c g → ⊥) → ShowsSlots rows slots session c create
        → ShowsSlots rows slots session (again c g) create }
    ensures filled { (rows : List Rowed) (slots : List Slotted) (session create : ℕ) (c : Client) (g status : ℕ)
        → (create ≡ create_for c g → ⊥) → ShowsSlots rows slots session c create
        → ShowsSlots rows slots session (noted_full c g false status) create }
    ensures begins { (rows : List Rowed) (slots : List Slotted) (session create : ℕ) (c : Client) (k id tree : ℕ)
        → ShowsSlots rows slots session c create → ShowsSlots rows slots (session + 1) (begin_session c k id tree) create }
    ensures starts { (rows : List Rowed) (who : Identity) (create : ℕ) → ShowsSlots rows [] 0 (new_client who) create }
    ensures fresh { (rows : List Rowed) (session create : ℕ) (c : Client) → c.session_number ≡ session
        → ((i : ℕ) → IsSlotUnused c create i) → ShowsSlots rows [] session c create }
    ensures keeps { (rows later : List Rowed) (slots : List Slotted) (session create : ℕ) (c d : Client) → KeepsSlots c d create
        → ShowsFirm later slots d → ShowsSlots rows slots session c create → ShowsSlots later slots session d create }
    ensures submits { (c : Client) (g : ℕ) (op : Op) (create : ℕ) → KeepsSlots c (take_op c g op) create }
    ensures slotless { (c : Client) (k g create : ℕ) → KeepsSlots c (settle_no_slot c k g) create }
    ensures cuts { (c : Client) (k create : ℕ) → KeepsSlots c (cut_channel c k) create }
    ensures binds { (c : Client) (k create : ℕ) → KeepsSlots c (bind_channel c k) create }
    ensures settles { (c : Client) (g : ℕ) (asking : Bool) (r : Replied) (place : ℕ) (outcome : Outcome) (create : ℕ)
        → KeepsSlots (noted_full c g asking r.status) (settle c g asking r place outcome) create }
    ensures unfilled { (c : Client) (g : ℕ) (asking : Bool) (status create : ℕ)
        → (is_lock (c.op g) && (not asking && (status == disk_full))) ≡ false → KeepsSlots c (noted_full c g asking status) create }
    ensures answers { (c : Client) (g create : ℕ) → KeepsSlots c (answered c g) create }
    ensures attaches { (c : Client) (g create : ℕ) → KeepsSlots c (joined c g) create }
    ensures ends { (c : Client) (create : ℕ) → KeepsSlots c (end_session c) create }
{}
