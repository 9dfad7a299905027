// Whether an operation goes out itself, and with which lock slot.
ghost use Rattle.std.specs.Prelude.{◌≡◌, ℕ, ◌+◌, ◌<◌, ◌≤◌, ◌&&◌, ◌||◌, not, true, List, length, ◌∷◌, [], ◌++◌, Some, IfSome, IfNone};
ghost use Rattle.base_lists.specs.declared.watch_lists.Link.{Link as Watch};
ghost use Rattle.spec_exchange.specs.Client.{Client, goes_itself as goes, has_its_slot, is_attached, lacks_slot, settle_no_slot};
ghost use Rattle.spec_exchange.specs.Schedules.{choose};
ghost use Rattle.law_client.specs.table.Kept.{TableKept};
ghost use Rattle.law_client.specs.choice.Choosing.{ChoiceGoes, chosen};
ghost use Rattle.client_rows.specs.session_state.Shown.{ClientShowsSession};
ghost use Rattle.client_rows.specs.lock_slots.Shown.{HaveRows};
ghost use Rattle.client_rows.specs.operation_rows.Rows.{row_at};
ghost use Rattle.client_rows.specs.Shown.{ShowsRows};
ghost use Rattle.client_rows.specs.open_marks.Marks.{is_create_kind, is_lock_kind};
ghost use Rattle.client_tables.specs.pushes.Shown.{PushShowsOpen};

use client_rows::{Row, Session, Slot, free_slot};
use client_values::Kind;

fn is_create(rows: &[Row], index: usize) -> bool
    requires { index < length rows.now }
    ensures { result ≡ is_create_kind (row_at rows.now index).kind }
{
    match rows[index].kind {
        Kind::Create => true,
        _ => false,
    }
}

fn is_lock(rows: &[Row], index: usize) -> bool
    requires { index < length rows.now }
    ensures { result ≡ is_lock_kind (row_at rows.now index).kind }
{
    match rows[index].kind {
        Kind::Lock => true,
        _ => false,
    }
}

/// Whether it is a lock that never went out itself.
fn is_new_lock(rows: &[Row], index: usize) -> bool
    requires { index < length rows.now }
    ensures { result ≡ (is_lock_kind (row_at rows.now index).kind && not (row_at rows.now index).sent) }
{
    is_lock(rows, index) && !rows[index].sent
}

/// Whether an operation goes out itself, and not a request to attach its open in its place: it is a create, or its open is
/// attached in this session.
pub fn goes_itself(rows: &[Row], session: &Session, attached: u32, index: usize) -> bool
    requires { index < length rows.now }
    ensures { (c : Client) (create : ℕ) → ClientShowsSession session.now c → c.attached create ≡ attached
        → result ≡ (is_create_kind (row_at rows.now index).kind || is_attached c create) }
{
    is_create(rows, index) || session.is_attached(attached)
}

/// Whether it is a lock that goes out itself for the first time.
fn takes_slot(rows: &[Row], session: &Session, attached: u32, index: usize) -> bool
    requires { index < length rows.now }
    ensures { (c : Client) (create : ℕ) → ClientShowsSession session.now c → c.attached create ≡ attached
        → result ≡ ((is_create_kind (row_at rows.now index).kind || is_attached c create)
        && (is_lock_kind (row_at rows.now index).kind && not (row_at rows.now index).sent)) }
{
    goes_itself(rows, session, attached, index) && is_new_lock(rows, index)
}

/// What becomes of an operation that nothing holds up and that is paid for: it goes out. A lock that goes out itself for the first
/// time takes the slot that is told; another one takes none, which is told as 0. Where nothing is told there is no slot for it.
pub fn pick(
    rows: &[Row],
    slots: &[Slot],
    session: &Session,
    attached: u32,
    index: usize,
) -> Option<u8>
    requires above { 0 < index }
    requires within { index < length rows.now }
    requires few { length slots.now ≤ 64 }
    requires users { HaveRows rows.now slots.now }
    ensures some { (c : Client) (holders prices : List ℕ) (watchers : List Watch) (k credits n : ℕ) (slotless : List ℕ)
        → ShowsRows rows.now holders prices watchers c → PushShowsOpen rows.now slots.now session.now attached index c
        → IfSome result (λ slot. chosen c k credits slotless index n
        ≡ record { slotless = slotless; pick = Some (record { op = index; slot = slot }) }) }
    ensures none { (c : Client) (holders prices : List ℕ) (watchers : List Watch) (k credits n : ℕ) (slotless : List ℕ)
        → ShowsRows rows.now holders prices watchers c → PushShowsOpen rows.now slots.now session.now attached index c
        → IfNone result (chosen c k credits slotless index n
        ≡ choose (settle_no_slot c k index) k credits (slotless ++ index ∷ []) (index + 1) n) }
    ensures lacks { (c : Client) (holders prices : List ℕ) (watchers : List Watch) (k credits : ℕ)
        → ShowsRows rows.now holders prices watchers c → PushShowsOpen rows.now slots.now session.now attached index c
        → TableKept c → c.ready k ≡ true → ChoiceGoes c credits index → IfNone result (lacks_slot c k index ≡ true) }
    ensures has { (c : Client) (holders prices : List ℕ) (watchers : List Watch) → ShowsRows rows.now holders prices watchers c
        → PushShowsOpen rows.now slots.now session.now attached index c
        → IfSome result (λ slot. goes c index ≡ true → has_its_slot c index slot ≡ true) }
    ensures slot { IfSome result (λ slot. slot ≤ length slots.now + 1) }
    ensures few { IfSome result (λ slot. slot ≤ 64) }
{
    if !takes_slot(rows, session, attached, index) {
        return Some(0);
    }
    free_slot(rows, slots, session.number())
}
