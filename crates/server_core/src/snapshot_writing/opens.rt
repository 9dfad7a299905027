//! Opens of a snapshot, each with what its slots keep.
ghost use Rattle.std.specs.Prelude.{◌≡◌, ◌≤◌, ◌++◌, ◌∷◌, [], ℕ, List, Option, true, OnOk};
ghost use Rattle.spec_exchange.specs.State.{Server, Kept};
ghost use Rattle.spec_exchange.specs.State as model;
ghost use Rattle.law_snapshots.specs.snapshots.Pieces.{SnapshotPiece, OpenPiece, slot_piece, slot_pieces, open_pieces};
ghost use Rattle.store_opens.specs.lock_replay.Shown.{SlotsShown};
ghost use Rattle.store_opens.specs.open_table.Shown.{ShowsOpens};
ghost use Rattle.store_opens.specs.open_table.Rows.{open_of};
ghost use Rattle.server_core.specs.snapshot_writing.Told.{IsTold, DraftGoesOn};
ghost use Rattle.server_core.specs.snapshot_writing.Opens.{ArePersistent};

use crate::snapshot_writing::bodies::Unwritten;
use crate::snapshot_writing::pieces::{tell_open, tell_slot};
use base_outside::Renewal;
use journal::{Journal, Rewrite};
use journal_bytes::{OpenFront, is_short};
use std::alloc::Global;
use store_opens::{Opens, Row, Slots};

/// Tells the opens of a list.
pub fn tell_opens<D: Renewal>(
    journal: &mut Journal<D>,
    rewrite: &mut Rewrite,
    body: &mut Vec<u8>,
    alloc: Global,
    opens: &Opens,
    ids: &[u64],
) -> Result<(), Unwritten>
    ensures told { (s : Server) (ps : List SnapshotPiece) → ShowsOpens opens.now s → ArePersistent s ids.now
        → IsTold D.told D.drafted journal.old.disk rewrite.old body.old.items ps
        → OnOk result (IsTold D.told D.drafted journal.new.disk rewrite.new body.new.items (ps ++ open_pieces s ids.now)) }
    ensures goes { DraftGoesOn D.told D.seen D.may_leave D.moment D.left_since D.faults journal.old journal.new result }
{
    for id in ids {
        match tell_one(journal, rewrite, body, alloc, opens, *id) {
            Ok(()) => {}
            Err(error) => return Err(error),
        }
    }
    Ok(())
}

// A persistent open with its slots.
fn tell_one<D: Renewal>(
    journal: &mut Journal<D>,
    rewrite: &mut Rewrite,
    body: &mut Vec<u8>,
    alloc: Global,
    opens: &Opens,
    id: u64,
) -> Result<(), Unwritten>
    ensures told { (s : Server) (ps : List SnapshotPiece) → ShowsOpens opens.now s → (s.opened id).persistent ≡ true
        → IsTold D.told D.drafted journal.old.disk rewrite.old body.old.items ps
        → OnOk result (IsTold D.told D.drafted journal.new.disk rewrite.new body.new.items (ps ++ OpenPiece id (s.opened id) ∷ slot_pieces (s.lock_sequences id) id 64)) }
    ensures goes { DraftGoesOn D.told D.seen D.may_leave D.moment D.left_since D.faults journal.old journal.new result }
{
    let Some(row) = opens.row(id) else {
        return Err(Unwritten::GivenUp);
    };
    match tell_row(journal, rewrite, body, alloc, id, row) {
        Ok(()) => tell_slots(journal, rewrite, body, id, &row.slots),
        Err(error) => Err(error),
    }
}

// An open but for its slots. Where it has no guid, or its user's name is longer than a piece can tell, the snapshot is given up.
fn tell_row<D: Renewal>(
    journal: &mut Journal<D>,
    rewrite: &mut Rewrite,
    body: &mut Vec<u8>,
    alloc: Global,
    id: u64,
    row: &Row,
) -> Result<(), Unwritten>
    ensures told { (ps : List SnapshotPiece) → row.now.persistent ≡ true
        → IsTold D.told D.drafted journal.old.disk rewrite.old body.old.items ps
        → OnOk result (IsTold D.told D.drafted journal.new.disk rewrite.new body.new.items (ps ++ OpenPiece id (open_of row.now) ∷ [])) }
    ensures goes { DraftGoesOn D.told D.seen D.may_leave D.moment D.left_since D.faults journal.old journal.new result }
{
    let Some(guid) = row.guid else {
        return Err(Unwritten::GivenUp);
    };
    if !is_short(row.user.as_str()) {
        return Err(Unwritten::GivenUp);
    }
    let front = OpenFront {
        file: row.file,
        client: row.client,
        guid,
        access: row.access,
        share: row.share,
        options: row.options,
        action: row.action,
        timeout: row.timeout,
    };
    tell_open(journal, rewrite, body, alloc, id, &row.user, &front)
}

// What the slots of an open keep, the last first.
fn tell_slots<D: Renewal>(
    journal: &mut Journal<D>,
    rewrite: &mut Rewrite,
    body: &mut Vec<u8>,
    id: u64,
    slots: &Slots,
) -> Result<(), Unwritten>
    ensures told { (kept : ℕ → Option Kept) (ps : List SnapshotPiece) → SlotsShown slots.now kept
        → IsTold D.told D.drafted journal.old.disk rewrite.old body.old.items ps
        → OnOk result (IsTold D.told D.drafted journal.new.disk rewrite.new body.new.items (ps ++ slot_pieces kept id 64)) }
    ensures goes { DraftGoesOn D.told D.seen D.may_leave D.moment D.left_since D.faults journal.old journal.new result }
{
    let mut index: u8 = 64;
    while index > 0 {
        match tell_slot_at(journal, rewrite, body, id, slots, index) {
            Ok(()) => index -= 1,
            Err(error) => return Err(error),
        }
    }
    Ok(())
}

fn tell_slot_at<D: Renewal>(
    journal: &mut Journal<D>,
    rewrite: &mut Rewrite,
    body: &mut Vec<u8>,
    id: u64,
    slots: &Slots,
    index: u8,
) -> Result<(), Unwritten>
    requires { (1 ≤ index) × (index ≤ 64) }
    ensures told { (kept : ℕ → Option Kept) (ps : List SnapshotPiece) → SlotsShown slots.now kept
        → IsTold D.told D.drafted journal.old.disk rewrite.old body.old.items ps
        → OnOk result (IsTold D.told D.drafted journal.new.disk rewrite.new body.new.items (ps ++ slot_piece id index (kept index))) }
    ensures goes { DraftGoesOn D.told D.seen D.may_leave D.moment D.left_since D.faults journal.old journal.new result }
{
    match slots.kept(index) {
        Some(kept) => tell_slot(journal, rewrite, body, id, index, kept.number, kept.status),
        None => Ok(()),
    }
}
