// Lock slots of an open (MS-SMB2 3.2.4.13).
ghost use Rattle.std.specs.Prelude.{◌≡◌, ℕ, ◌<◌, ◌≤◌, length};
ghost use Rattle.client_rows.specs.operation_rows.Slots.{is_slot_free, is_free_slot, slot_least, slot_at};

use crate::operation_rows::row::Row;

/// A lock slot.
#[derive(Clone, Copy, Debug, PartialEq, Eq)]
pub struct Slot {
    /// The last lock or unlock that took it.
    pub user: u32,
    /// The number of the session in which it was retried last.
    pub retried: u32,
    /// It met DISK_FULL.
    pub full: bool,
}

/// Whether a slot isn't in use, wasn't retried in this session and never met DISK_FULL.
fn may_be_taken(rows: &[Row], slot: &Slot, session: u32) -> bool
    requires { slot.now.user < length rows.now }
    ensures { result ≡ is_free_slot rows.now session slot.now }
{
    // Settled as Ok or Refused: a lock that was given up may never have reached the server. After sixteen of them the
    // server could still keep that slot's number, and would answer the next lock with an old result.
    rows[slot.user as usize].firm && slot.retried != session && !slot.full
}

/// The least slot from 1 to 64 that may be taken. Those behind an open's slots were never used.
pub fn least_free(rows: &[Row], slots: &[Slot], session: u32) -> Option<u8>
    requires few { length slots.now ≤ 64 }
    requires users { (i : ℕ) → i < length slots.now → (slot_at slots.now i).user < length rows.now }
    ensures { result ≡ slot_least (is_slot_free rows.now slots.now session) 1 64 }
{
    for (place, slot) in slots.iter().enumerate() {
        if may_be_taken(rows, slot, session) {
            return Some(place as u8 + 1);
        }
    }
    if slots.len() < 64 {
        Some(slots.len() as u8 + 1)
    } else {
        None
    }
}
