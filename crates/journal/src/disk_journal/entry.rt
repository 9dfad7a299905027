// One entry, behind its gate.
ghost use Rattle.std.specs.Prelude.{◌≡◌, ℕ, ◌-◌, ◌<◌, ◌^◌, List, [], ◌∷◌, ◌++◌, drop, length, OnOk};
ghost use Rattle.base_outside.specs.streams.Disk.{Only};
ghost use Rattle.base_outside.specs.streams.Faults.{CountsFault};
ghost use Rattle.spec_wire.specs.journal.Moments.{LeavesOnly};
ghost use Rattle.journal.specs.disk_journal.Entry.{ClosedAt, StaysClosed, IsClosedOrOpened};
ghost use Rattle.journal.specs.disk_journal.Entry.{WaitsAt, IsClosedBeforeOrBehind};

use base_outside::{Disk, Failed};

/// Writes an entry behind a closed gate, over whatever stands there, and syncs. The gate stays closed.
pub(crate) fn stage_entry<D: Disk>(disk: &mut D, gate: u64, behind: &[u8]) -> Result<(), Failed>
    requires { gate < 2 ^ 63 }
    ensures done { D.told → (front rest : List ℕ) (shut : ℕ) → ClosedAt gate front shut rest (D.seen disk.old)
        → Only (D.seen disk.old) (D.may_leave disk.old)
        → OnOk result ((D.seen disk.new ≡ front ++ shut ∷ (behind.now ++ drop (length behind.now) rest))
        × Only (D.seen disk.new) (D.may_leave disk.new)) }
    ensures any_moment { D.told → (front rest : List ℕ) (shut : ℕ) → ClosedAt gate front shut rest (D.seen disk.old)
        → Only (D.seen disk.old) (D.may_leave disk.old)
        → LeavesOnly D.moment D.left_since disk.old disk.new (StaysClosed front) }
    ensures cause { CountsFault (D.faults disk.old) (D.faults disk.new) result }
{
    disk.write_at(gate + 1, behind)?;
    disk.sync()?;
    Ok(())
}

/// Opens the gate of an entry that is on the disk, and syncs.
pub(crate) fn open_gate<D: Disk>(disk: &mut D, gate: u64) -> Result<(), Failed>
    ensures done { D.told → (front behind left : List ℕ) (shut : ℕ) → ClosedAt gate front shut (behind ++ left) (D.seen disk.old)
        → Only (D.seen disk.old) (D.may_leave disk.old)
        → OnOk result ((D.seen disk.new ≡ front ++ 1 ∷ (behind ++ left)) × Only (D.seen disk.new) (D.may_leave disk.new)) }
    ensures any_moment { D.told → (front behind left : List ℕ) (shut : ℕ) → ClosedAt gate front shut (behind ++ left) (D.seen disk.old)
        → Only (D.seen disk.old) (D.may_leave disk.old)
        → LeavesOnly D.moment D.left_since disk.old disk.new (IsClosedOrOpened front behind) }
    ensures cause { CountsFault (D.faults disk.old) (D.faults disk.new) result }
{
    disk.write_at(gate, &[1])?;
    disk.sync()?;
    Ok(())
}

/// Opens the gate of the entry that waits, and writes the next entry behind the closed gate at its end, over whatever stands there,
/// with one sync. From then on each crash leaves a disk that stands for the entry that waited; the new one waits.
pub(crate) fn write_next<D: Disk>(
    disk: &mut D,
    gate: u64,
    next: u64,
    behind: &[u8],
) -> Result<(), Failed>
    requires { next < 2 ^ 63 }
    ensures done { D.told → (front entry rest : List ℕ) (shut last : ℕ) → WaitsAt gate next front entry shut last rest (D.seen disk.old)
        → Only (D.seen disk.old) (D.may_leave disk.old)
        → OnOk result ((D.seen disk.new ≡ (front ++ 1 ∷ entry) ++ last ∷ (behind.now ++ drop (length behind.now) rest))
        × Only (D.seen disk.new) (D.may_leave disk.new)) }
    ensures any_moment { D.told → (front entry rest : List ℕ) (shut last : ℕ) → WaitsAt gate next front entry shut last rest (D.seen disk.old)
        → Only (D.seen disk.old) (D.may_leave disk.old)
        → LeavesOnly D.moment D.left_since disk.old disk.new (IsClosedBeforeOrBehind front entry) }
    ensures cause { CountsFault (D.faults disk.old) (D.faults disk.new) result }
{
    // Both writes may be torn in any order: the closed gate between the two entries isn't written over, so whichever way the
    // first gate stands, what lies behind is cut off by a closed gate.
    disk.write_at(gate, &[1])?;
    disk.write_at(next + 1, behind)?;
    disk.sync()?;
    Ok(())
}

/// Writes an entry behind a closed gate, over whatever stands there, and opens the gate when the entry is on the disk.
pub(crate) fn write_entry<D: Disk>(disk: &mut D, gate: u64, behind: &[u8]) -> Result<(), Failed>
    requires { gate < 2 ^ 63 }
    ensures done { D.told → (front rest : List ℕ) (shut : ℕ) → ClosedAt gate front shut rest (D.seen disk.old)
        → Only (D.seen disk.old) (D.may_leave disk.old)
        → OnOk result ((D.seen disk.new ≡ front ++ 1 ∷ (behind.now ++ drop (length behind.now) rest))
        × Only (D.seen disk.new) (D.may_leave disk.new)) }
    ensures any_moment { D.told → (front rest : List ℕ) (shut : ℕ) → ClosedAt gate front shut rest (D.seen disk.old)
        → Only (D.seen disk.old) (D.may_leave disk.old)
        → LeavesOnly D.moment D.left_since disk.old disk.new (IsClosedOrOpened front behind.now) }
    ensures cause { CountsFault (D.faults disk.old) (D.faults disk.new) result }
{
    // The entry and the next closed gate are synced before this gate opens. A crash until then leaves it closed, with
    // the bodies before it, and no half entry is ever read.
    stage_entry(disk, gate, behind)?;
    open_gate(disk, gate)
}

/// Cuts what stands behind the closed gate at a place.
pub(crate) fn cut_behind<D: Disk>(disk: &mut D, gate: u64) -> Result<(), Failed>
    requires { gate < 2 ^ 64 - 1 }
    ensures done { D.told → (front rest : List ℕ) (shut : ℕ) → ClosedAt gate front shut rest (D.seen disk.old)
        → Only (D.seen disk.old) (D.may_leave disk.old)
        → OnOk result ((D.seen disk.new ≡ front ++ shut ∷ []) × Only (D.seen disk.new) (D.may_leave disk.new)) }
    ensures any_moment { D.told → (front rest : List ℕ) (shut : ℕ) → ClosedAt gate front shut rest (D.seen disk.old)
        → Only (D.seen disk.old) (D.may_leave disk.old)
        → LeavesOnly D.moment D.left_since disk.old disk.new (StaysClosed front) }
    ensures cause { CountsFault (D.faults disk.old) (D.faults disk.new) result }
{
    // The closed gate stays as it is, and the cut comes after it: nothing is written, so no gate can be torn.
    disk.cut(gate + 1)?;
    disk.sync()?;
    Ok(())
}
