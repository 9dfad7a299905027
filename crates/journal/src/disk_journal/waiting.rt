// An entry that waits behind its closed gate until the next sync opens it.
ghost use Rattle.std.specs.Prelude.{◌≡◌, ℕ, ◌<◌, ◌^◌, List, ◌∷◌, ◌++◌, drop, length, IfErr, None, OnOk, Some};
ghost use Rattle.base_outside.specs.streams.Disk.{Only};
ghost use Rattle.base_outside.specs.streams.Faults.{CountsFault};
ghost use Rattle.spec_wire.specs.journal.Moments.{LeavesOnly};
ghost use Rattle.journal.specs.disk_journal.Entry.{ClosedAt, StaysClosed, IsClosedOrOpened};
ghost use Rattle.journal.specs.disk_journal.Entry.{WaitsAt, IsClosedBeforeOrBehind, IsClosedOrNextOpened};

use crate::disk_journal::entry::{open_gate, stage_entry, write_entry, write_next};
use base_outside::{Disk, Failed};

/// Opens the gate of the entry that waits, if one does, and syncs.
pub(crate) fn open_waiting<D: Disk>(disk: &mut D, waits: Option<u64>) -> Result<(), Failed>
    ensures none { waits ≡ None → disk.new ≡ disk.old }
    ensures never_fails { waits ≡ None → IfErr result (λ _. ⊥) }
    ensures done { D.told → (gate : ℕ) → waits ≡ Some gate → (front behind left : List ℕ) (shut : ℕ)
        → ClosedAt gate front shut (behind ++ left) (D.seen disk.old) → Only (D.seen disk.old) (D.may_leave disk.old)
        → OnOk result ((D.seen disk.new ≡ front ++ 1 ∷ (behind ++ left)) × Only (D.seen disk.new) (D.may_leave disk.new)) }
    ensures any_moment { D.told → (gate : ℕ) → waits ≡ Some gate → (front behind left : List ℕ) (shut : ℕ)
        → ClosedAt gate front shut (behind ++ left) (D.seen disk.old) → Only (D.seen disk.old) (D.may_leave disk.old)
        → LeavesOnly D.moment D.left_since disk.old disk.new (IsClosedOrOpened front behind) }
    ensures cause { CountsFault (D.faults disk.old) (D.faults disk.new) result }
{
    match waits {
        None => Ok(()),
        Some(gate) => open_gate(disk, gate),
    }
}

/// Writes an entry behind the closed gate at the end, and opens both that of the entry that waits, if one does, and its own.
pub(crate) fn add_entry<D: Disk>(
    disk: &mut D,
    waits: Option<u64>,
    gate: u64,
    behind: &[u8],
) -> Result<(), Failed>
    requires { gate < 2 ^ 63 }
    ensures done { D.told → waits ≡ None → (front rest : List ℕ) (shut : ℕ) → ClosedAt gate front shut rest (D.seen disk.old)
        → Only (D.seen disk.old) (D.may_leave disk.old)
        → OnOk result ((D.seen disk.new ≡ front ++ 1 ∷ (behind.now ++ drop (length behind.now) rest))
        × Only (D.seen disk.new) (D.may_leave disk.new)) }
    ensures any_moment { D.told → waits ≡ None → (front rest : List ℕ) (shut : ℕ) → ClosedAt gate front shut rest (D.seen disk.old)
        → Only (D.seen disk.old) (D.may_leave disk.old)
        → LeavesOnly D.moment D.left_since disk.old disk.new (IsClosedOrOpened front behind.now) }
    ensures next { D.told → (before : ℕ) → waits ≡ Some before → (front entry rest : List ℕ) (shut last : ℕ)
        → WaitsAt before gate front entry shut last rest (D.seen disk.old) → Only (D.seen disk.old) (D.may_leave disk.old)
        → OnOk result ((D.seen disk.new ≡ (front ++ 1 ∷ entry) ++ 1 ∷ (behind.now ++ drop (length behind.now) rest))
        × Only (D.seen disk.new) (D.may_leave disk.new)) }
    ensures next_moment { D.told → (before : ℕ) → waits ≡ Some before → (front entry rest : List ℕ) (shut last : ℕ)
        → WaitsAt before gate front entry shut last rest (D.seen disk.old) → Only (D.seen disk.old) (D.may_leave disk.old)
        → LeavesOnly D.moment D.left_since disk.old disk.new (IsClosedOrNextOpened front entry behind.now) }
    ensures cause { CountsFault (D.faults disk.old) (D.faults disk.new) result }
{
    open_waiting(disk, waits)?;
    write_entry(disk, gate, behind)
}

/// Writes an entry behind the closed gate at the end, which stays closed, and opens that of the entry that waits, if one does.
pub(crate) fn put_entry<D: Disk>(
    disk: &mut D,
    waits: Option<u64>,
    gate: u64,
    behind: &[u8],
) -> Result<(), Failed>
    requires { gate < 2 ^ 63 }
    ensures first { D.told → waits ≡ None → (front rest : List ℕ) (shut : ℕ) → ClosedAt gate front shut rest (D.seen disk.old)
        → Only (D.seen disk.old) (D.may_leave disk.old)
        → OnOk result ((D.seen disk.new ≡ front ++ shut ∷ (behind.now ++ drop (length behind.now) rest))
        × Only (D.seen disk.new) (D.may_leave disk.new)) }
    ensures first_moment { D.told → waits ≡ None → (front rest : List ℕ) (shut : ℕ) → ClosedAt gate front shut rest (D.seen disk.old)
        → Only (D.seen disk.old) (D.may_leave disk.old)
        → LeavesOnly D.moment D.left_since disk.old disk.new (StaysClosed front) }
    ensures next { D.told → (before : ℕ) → waits ≡ Some before → (front entry rest : List ℕ) (shut last : ℕ)
        → WaitsAt before gate front entry shut last rest (D.seen disk.old) → Only (D.seen disk.old) (D.may_leave disk.old)
        → OnOk result ((D.seen disk.new ≡ (front ++ 1 ∷ entry) ++ last ∷ (behind.now ++ drop (length behind.now) rest))
        × Only (D.seen disk.new) (D.may_leave disk.new)) }
    ensures next_moment { D.told → (before : ℕ) → waits ≡ Some before → (front entry rest : List ℕ) (shut last : ℕ)
        → WaitsAt before gate front entry shut last rest (D.seen disk.old) → Only (D.seen disk.old) (D.may_leave disk.old)
        → LeavesOnly D.moment D.left_since disk.old disk.new (IsClosedBeforeOrBehind front entry) }
    ensures cause { CountsFault (D.faults disk.old) (D.faults disk.new) result }
{
    match waits {
        None => stage_entry(disk, gate, behind),
        Some(before) => write_next(disk, before, gate, behind),
    }
}
