//! Ranges of a snapshot, file by file, and the guids of opens that expired.
ghost use Rattle.std.specs.Prelude.{◌≡◌, ◌++◌, ◌∷◌, [], ℕ, List, OnOk};
ghost use Rattle.spec_exchange.specs.State.{Server};
ghost use Rattle.spec_exchange.specs.Fold.{stays, ranges_that_stay};
ghost use Rattle.law_snapshots.specs.snapshots.Pieces.{SnapshotPiece, range_pieces, all_range_pieces, guid_pieces};
ghost use Rattle.store_opens.specs.open_table.Shown.{ShowsOpens};
ghost use Rattle.store_opens.specs.share_modes.Locking.{range_of};
ghost use Rattle.server_core.specs.snapshot_writing.Told.{IsTold, DraftGoesOn};
ghost use Rattle.law_snapshots.specs.snapshots.Taken.{numbered_entries};

use crate::snapshot_writing::bodies::Unwritten;
use crate::snapshot_writing::pieces::{tell_guid, tell_range};
use base_outside::Renewal;
use journal::{Journal, Rewrite};
use spec_exchange::values;
use store_opens::{Opens, Range};

/// Tells the ranges that persistent opens lock of these files.
pub fn tell_all_ranges<D: Renewal>(
    journal: &mut Journal<D>,
    rewrite: &mut Rewrite,
    body: &mut Vec<u8>,
    opens: &Opens,
    order: &[u64],
) -> Result<(), Unwritten>
    ensures told { (s : Server) (ps : List SnapshotPiece) → ShowsOpens opens.now s
        → IsTold D.told D.drafted journal.old.disk rewrite.old body.old.items ps
        → OnOk result (IsTold D.told D.drafted journal.new.disk rewrite.new body.new.items (ps ++ all_range_pieces s (numbered_entries s order.now))) }
    ensures goes { DraftGoesOn D.told D.seen D.may_leave D.moment D.left_since D.faults journal.old journal.new result }
{
    for file in order {
        match tell_ranges(journal, rewrite, body, opens, *file) {
            Ok(()) => {}
            Err(error) => return Err(error),
        }
    }
    Ok(())
}

/// Tells the ranges that persistent opens lock of a file, in the order in which they were granted.
pub fn tell_ranges<D: Renewal>(
    journal: &mut Journal<D>,
    rewrite: &mut Rewrite,
    body: &mut Vec<u8>,
    opens: &Opens,
    file: u64,
) -> Result<(), Unwritten>
    ensures told { (s : Server) (ps : List SnapshotPiece) → ShowsOpens opens.now s
        → IsTold D.told D.drafted journal.old.disk rewrite.old body.old.items ps
        → OnOk result (IsTold D.told D.drafted journal.new.disk rewrite.new body.new.items (ps ++ range_pieces (ranges_that_stay s (s.ranges file)))) }
    ensures goes { DraftGoesOn D.told D.seen D.may_leave D.moment D.left_since D.faults journal.old journal.new result }
{
    let ranges = opens.ranges(file);
    for range in ranges {
        match tell_if_kept(journal, rewrite, body, opens, range) {
            Ok(()) => {}
            Err(error) => return Err(error),
        }
    }
    Ok(())
}

// A range, where its open is persistent.
fn tell_if_kept<D: Renewal>(
    journal: &mut Journal<D>,
    rewrite: &mut Rewrite,
    body: &mut Vec<u8>,
    opens: &Opens,
    range: &Range,
) -> Result<(), Unwritten>
    ensures told { (s : Server) (ps : List SnapshotPiece) → ShowsOpens opens.now s
        → IsTold D.told D.drafted journal.old.disk rewrite.old body.old.items ps
        → OnOk result (IsTold D.told D.drafted journal.new.disk rewrite.new body.new.items (ps ++ range_pieces (ranges_that_stay s (range_of range.now ∷ [])))) }
    ensures goes { DraftGoesOn D.told D.seen D.may_leave D.moment D.left_since D.faults journal.old journal.new result }
{
    if !is_kept(opens, range.owner) {
        return Ok(());
    }
    let told = value_of(range);
    tell_range(journal, rewrite, body, &told)
}

// The open outlives a restart.
fn is_kept(opens: &Opens, id: u64) -> bool
    ensures { (s : Server) → ShowsOpens opens.now s → result ≡ stays s id }
{
    match opens.row(id) {
        Some(row) => row.persistent,
        None => false,
    }
}

fn value_of(range: &Range) -> values::Range
    ensures { result ≡ range_of range.now }
{
    values::Range {
        owner: range.owner,
        at: range.at,
        length: range.length,
        exclusive: range.exclusive,
    }
}

/// Tells the guids of opens that expired.
pub fn tell_guids<D: Renewal>(
    journal: &mut Journal<D>,
    rewrite: &mut Rewrite,
    body: &mut Vec<u8>,
    guids: &[(u128, u128)],
) -> Result<(), Unwritten>
    ensures told { (ps : List SnapshotPiece)
        → IsTold D.told D.drafted journal.old.disk rewrite.old body.old.items ps
        → OnOk result (IsTold D.told D.drafted journal.new.disk rewrite.new body.new.items (ps ++ guid_pieces guids.now)) }
    ensures goes { DraftGoesOn D.told D.seen D.may_leave D.moment D.left_since D.faults journal.old journal.new result }
{
    for pair in guids {
        let (client, guid) = *pair;
        match tell_guid(journal, rewrite, body, client, guid) {
            Ok(()) => {}
            Err(error) => return Err(error),
        }
    }
    Ok(())
}
