//! Bodies of a snapshot, put into a draft as they come to have enough pieces.
ghost use Rattle.std.specs.Prelude.{◌≡◌, ◌<◌, ◌++◌, ◌∷◌, [], ℕ, List, length, OnOk};
ghost use Rattle.law_snapshots.specs.snapshots.Pieces.{SnapshotPiece};
ghost use Rattle.journal.specs.disk_journal.Rewrite.{IsDrafted};
ghost use Rattle.server_core.specs.snapshot_writing.Told.{IsTold, IsOutcome, DraftGoesOn};

use base_outside::{DiskStep, Renewal};
use journal::{Journal, JournalError, Rewrite};
use journal_bytes::pieces_law;

// So many bytes make a body, with those of its last piece.
const ENOUGH: usize = 1_048_576;

/// Why a snapshot isn't written.
#[derive(Debug, PartialEq, Eq, Drop)]
pub enum Unwritten {
    /// There is no room or no memory for it; the journal goes on as it was.
    GivenUp,
    /// The disk failed at this count of faults, now or before.
    Fault(u64),
}

// Puts a body into the draft.
fn put_body<D: Renewal>(
    journal: &mut Journal<D>,
    rewrite: &mut Rewrite,
    body: &[u8],
) -> Result<(), Unwritten>
    ensures put { D.told → (bodies : List (List ℕ)) → IsDrafted D.drafted journal.old.disk rewrite.old bodies
        → OnOk result (IsDrafted D.drafted journal.new.disk rewrite.new (bodies ++ body.now ∷ [])) }
    ensures goes { DraftGoesOn D.told D.seen D.may_leave D.moment D.left_since D.faults journal.old journal.new result }
{
    let step = journal.put(rewrite, body);
    outcome(step)
}

// What a step into a draft came to.
fn outcome(step: Result<DiskStep, JournalError>) -> Result<(), Unwritten>
    ensures { IsOutcome step result }
{
    match step {
        Ok(DiskStep::Done) => Ok(()),
        Ok(DiskStep::NoRoom) => Err(Unwritten::GivenUp),
        Err(JournalError::DiskFault(count)) => Err(Unwritten::Fault(count)),
        Err(JournalError::Stopped(count)) => Err(Unwritten::Fault(count)),
        Err(_) => Err(Unwritten::GivenUp),
    }
}

// Puts the pieces that are gathered into the draft, as one body.
fn put_gathered<D: Renewal>(
    journal: &mut Journal<D>,
    rewrite: &mut Rewrite,
    body: &mut Vec<u8>,
) -> Result<(), Unwritten>
    requires { 0 < length body.old.items }
    ensures told { (ps : List SnapshotPiece) → IsTold D.told D.drafted journal.old.disk rewrite.old body.old.items ps
        → OnOk result (IsTold D.told D.drafted journal.new.disk rewrite.new body.new.items ps) }
    ensures empty { OnOk result (body.new.items ≡ []) }
    ensures goes { DraftGoesOn D.told D.seen D.may_leave D.moment D.left_since D.faults journal.old journal.new result }
{
    pieces_law();
    match put_body(journal, rewrite, body.as_slice()) {
        Ok(()) => {
            body.clear();
            Ok(())
        }
        Err(error) => Err(error),
    }
}

/// Puts the pieces that are gathered into the draft, where they have enough bytes.
pub fn pass_on<D: Renewal>(
    journal: &mut Journal<D>,
    rewrite: &mut Rewrite,
    body: &mut Vec<u8>,
) -> Result<(), Unwritten>
    ensures told { (ps : List SnapshotPiece) → IsTold D.told D.drafted journal.old.disk rewrite.old body.old.items ps
        → OnOk result (IsTold D.told D.drafted journal.new.disk rewrite.new body.new.items ps) }
    ensures goes { DraftGoesOn D.told D.seen D.may_leave D.moment D.left_since D.faults journal.old journal.new result }
{
    if body.len() < ENOUGH {
        return Ok(());
    }
    put_gathered(journal, rewrite, body)
}

/// Puts the last pieces into the draft.
pub fn put_rest<D: Renewal>(
    journal: &mut Journal<D>,
    rewrite: &mut Rewrite,
    body: &mut Vec<u8>,
) -> Result<(), Unwritten>
    ensures told { (ps : List SnapshotPiece) → IsTold D.told D.drafted journal.old.disk rewrite.old body.old.items ps
        → OnOk result (IsTold D.told D.drafted journal.new.disk rewrite.new body.new.items ps) }
    ensures empty { OnOk result (body.new.items ≡ []) }
    ensures goes { DraftGoesOn D.told D.seen D.may_leave D.moment D.left_since D.faults journal.old journal.new result }
{
    if body.is_empty() {
        return Ok(());
    }
    put_gathered(journal, rewrite, body)
}
