// A disk that a crash may have left, made a journal again.
ghost use Rattle.std.specs.Prelude.{◌≡◌, ◌⊎◌, ℕ, ◌-◌, ◌<◌, ◌≤◌, ◌^◌, List, length, IfOk, OnOk};
ghost use Rattle.base_outside.specs.streams.Disk.{Only};
ghost use Rattle.base_outside.specs.streams.Faults.{CountsFault};
ghost use Rattle.spec_journal.specs.Forms.{BreaksAt, StandsFor};
ghost use Rattle.spec_wire.specs.journal.Moments.{LeavesOnly, Quiet};
ghost use Rattle.journal.specs.disk_journal.Read.{FoundIn, IsWithin};
ghost use Rattle.journal.specs.disk_journal.Repair.{Examined, MayBeWithin, Mends, LeavesBroken};

use crate::disk_journal::entry::cut_behind;
use crate::disk_journal::prepare;
use crate::disk_journal::read::{Found, survey};
use base_outside::{Disk, Failed};
use spec_journal::Form;

// At most 9 bytes that are no journal are taken as a new disk.
fn or_new(found: Found, end: u64) -> Option<Found>
    requires { 9 ≤ end }
    ensures examined { (m : List ℕ) → end ≡ length m → FoundIn m found → Examined m result }
    ensures bound { IsWithin end found → MayBeWithin end result }
{
    match found {
        // A crash in `prepare` may leave any 9 bytes. More bytes that are no journal are never overwritten.
        Found::Broken(_) if end <= 9 => None,
        _ => Some(found),
    }
}

// How a disk stands, when all that was written is on it. `None` for a new one.
fn examine<D: Disk>(disk: &mut D) -> Result<Option<Found>, Failed>
    ensures examined { D.told → IfOk result (λ o. Examined (D.seen disk.old) o) }
    ensures bound { IfOk result (λ o. MayBeWithin (2 ^ 64 - 1) o) }
    ensures durable { D.told → OnOk result (Only (D.seen disk.old) (D.may_leave disk.new)) }
    ensures quiet { Quiet D.told D.seen D.may_leave D.moment D.left_since disk.old disk.new }
    ensures cause { CountsFault (D.faults disk.old) (D.faults disk.new) result }
{
    // Before the first read, since a read may give bytes that a crash would still take away.
    disk.sync()?;
    let end = disk.length()?;
    if end < 9 {
        return Ok(None);
    }
    let found = survey(disk, end)?;
    Ok(or_new(found, end))
}

/// Makes a disk that a crash may have left a journal again: syncs, reads the gates, and cuts behind the
/// closed one, or makes a new journal of at most 9 bytes that are none. It answers where that gate stands
/// and how many bodies there are, or where the bytes break the grammar; then it only read. So an entry whose
/// checksum differs is found before anything is cut.
///
/// Whatever it answers, a read then gives bytes that stand for the same bodies, and a crash at any moment leaves what it could
/// leave before the call, or such bytes; and a disk whose bytes break the grammar was only read and synced. `Failed` comes only
/// where the count of faults rose.
pub fn repair<D: Disk>(disk: &mut D) -> Result<Found, Failed>
    ensures mended { D.told → IfOk result (λ f. Mends D.seen D.may_leave disk.old disk.new f) }
    ensures broken { IfOk result (λ f. LeavesBroken D.told D.seen D.may_leave D.moment D.left_since disk.old disk.new f) }
    ensures spared { D.told → (at : ℕ) → BreaksAt (D.seen disk.old) at
        → Quiet D.told D.seen D.may_leave D.moment D.left_since disk.old disk.new }
    ensures stays { D.told → (bodies : List (List ℕ)) → StandsFor (D.seen disk.old) bodies → StandsFor (D.seen disk.new) bodies }
    ensures any_moment { D.told → (bodies : List (List ℕ)) → StandsFor (D.seen disk.old) bodies
        → LeavesOnly D.moment D.left_since disk.old disk.new (λ c. D.may_leave disk.old c ⊎ StandsFor c bodies) }
    ensures bound { IfOk result (λ f. IsWithin (2 ^ 64 - 1) f) }
    ensures cause { CountsFault (D.faults disk.old) (D.faults disk.new) result }
{
    match examine(disk)? {
        None => {
            prepare(disk)?;
            Ok(Found::Behind {
                form: Form::Plain,
                gate: 8,
                used: 9,
                count: 0,
            })
        }
        Some(
            Found::Behind {
                form,
                gate,
                used,
                count,
            },
        ) => {
            cut_behind(disk, gate)?;
            Ok(Found::Behind {
                form,
                gate,
                used,
                count,
            })
        }
        Some(Found::Broken(at)) => Ok(Found::Broken(at)),
    }
}
