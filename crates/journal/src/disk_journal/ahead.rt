// Zeros behind the closed gate, so that the entries to come don't make the file grow.
ghost use Rattle.std.specs.Prelude.{◌≡◌, ℕ, ◌+◌, ◌<◌, ◌≤◌, ◌^◌, List, ◌∷◌, ◌++◌, length, IfOk, IsTrue, OnOk, vec_capacity};
ghost use Rattle.base_outside.specs.streams.Disk.{Only};
ghost use Rattle.base_outside.specs.streams.Faults.{CountsFault};
ghost use Rattle.spec_wire.specs.journal.Moments.{LeavesOnly};
ghost use Rattle.journal.specs.disk_journal.Ahead.{StaysBehind};
ghost use Rattle.journal.specs.disk_journal.Entry.{ClosedAt, StaysClosed};

use base_outside::{DiskStep, Failed, TellsRoom};
use std::alloc::AllocError;

// How many bytes are to stand behind the closed gate.
const AHEAD: u64 = 16_777_216;

// Where so many stand there, nothing is written.
const LEAST: u64 = 4_194_304;

// So many are written at once.
const PIECE: usize = 65_536;

/// Makes a piece of zeros of a buffer.
pub(crate) fn make_zeros(buffer: &mut Vec<u8>) -> Result<(), AllocError>
    ensures made { OnOk result (length buffer.new.items ≡ 65536) }
    ensures room { vec_capacity buffer.old ≤ vec_capacity buffer.new }
{
    buffer.clear();
    buffer.resize(PIECE, 0)?;
    Ok(())
}

// Puts pieces behind a closed gate, from a place on to another. `false` where the disk has no room for them.
fn put_pieces<D: TellsRoom>(
    disk: &mut D,
    gate: u64,
    from: u64,
    end: u64,
    zeros: &[u8],
) -> Result<bool, Failed>
    requires { (gate < from) × (end < 2 ^ 63) × (length zeros.now ≡ 65536) }
    ensures stays { D.told → (front rest : List ℕ) (shut : ℕ) → ClosedAt gate front shut rest (D.seen disk.old)
        → Only (D.seen disk.old) (D.may_leave disk.old)
        → OnOk result (StaysBehind D.seen D.may_leave D.moment D.left_since front shut disk.old disk.new) }
    ensures any_moment { D.told → (front rest : List ℕ) (shut : ℕ) → ClosedAt gate front shut rest (D.seen disk.old)
        → Only (D.seen disk.old) (D.may_leave disk.old)
        → LeavesOnly D.moment D.left_since disk.old disk.new (StaysClosed front) }
    ensures filled { D.told → from ≤ length (D.seen disk.old) → IfOk result (λ whole. IsTrue whole → end ≤ length (D.seen disk.new)) }
    ensures cause { CountsFault (D.faults disk.old) (D.faults disk.new) result }
{
    let mut at = from;
    while at < end {
        match disk.write_if_room(at, zeros) {
            Ok(DiskStep::Done) => at += zeros.len() as u64,
            Ok(DiskStep::NoRoom) => return Ok(false),
            Err(failed) => return Err(failed),
        }
    }
    Ok(true)
}

/// Writes zeros behind a closed gate until 16 MiB stand there, where fewer than 4 MiB do, and syncs. `false` where the disk has no room
/// for them.
pub(crate) fn fill_ahead<D: TellsRoom>(
    disk: &mut D,
    gate: u64,
    zeros: &[u8],
) -> Result<bool, Failed>
    requires { (gate < 2 ^ 62) × (length zeros.now ≡ 65536) }
    ensures done { D.told → (front rest : List ℕ) (shut : ℕ) → ClosedAt gate front shut rest (D.seen disk.old)
        → Only (D.seen disk.old) (D.may_leave disk.old)
        → OnOk result ((left : List ℕ) × (D.seen disk.new ≡ front ++ shut ∷ left) × Only (D.seen disk.new) (D.may_leave disk.new)) }
    ensures any_moment { D.told → (front rest : List ℕ) (shut : ℕ) → ClosedAt gate front shut rest (D.seen disk.old)
        → Only (D.seen disk.old) (D.may_leave disk.old)
        → LeavesOnly D.moment D.left_since disk.old disk.new (StaysClosed front) }
    ensures filled { D.told → (front rest : List ℕ) (shut : ℕ) → ClosedAt gate front shut rest (D.seen disk.old)
        → IfOk result (λ whole. IsTrue whole → gate + 1 + 4194304 ≤ length (D.seen disk.new)) }
    ensures cause { CountsFault (D.faults disk.old) (D.faults disk.new) result }
{
    let length = disk.length()?;
    if length > gate + LEAST {
        return Ok(true);
    }
    let whole = put_pieces(disk, gate, length.max(gate + 1), gate + 1 + AHEAD, zeros)?;
    disk.sync()?;
    Ok(whole)
}
