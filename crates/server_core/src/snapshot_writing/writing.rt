//! The whole snapshot: its pieces one behind the other, and how many bytes they may take.
ghost use Rattle.std.specs.Prelude.{◌≡◌, ◌<◌, ◌≤◌, ◌++◌, ◌∷◌, [], ℕ, List, length, true, OnOk};
ghost use Rattle.spec_exchange.specs.State.{Server};
ghost use Rattle.spec_exchange.specs.Files.{root};
ghost use Rattle.spec_exchange.specs.Fold.{persistent_in, ranges_that_stay};
ghost use Rattle.law_server.specs.tables.Fits.{Fits};
ghost use Rattle.law_snapshots.specs.snapshots.Pieces.{SnapshotPiece, base_piece, open_pieces, range_pieces, all_range_pieces, guid_pieces};
ghost use Rattle.journal.specs.disk_journal.Rewrite.{IsDrafted};
ghost use Rattle.store_files.specs.file_tree.Shown.{ShowsFiles};
ghost use Rattle.store_files.specs.file_tree.Placed.{IsPathOrder};
ghost use Rattle.store_opens.specs.open_table.Shown.{ShowsOpens};
ghost use Rattle.store_opens.specs.open_table.Stood.{AreExpired};
ghost use Rattle.server_core.specs.snapshot_writing.Opens.{ArePersistent};
ghost use Rattle.law_snapshots.specs.snapshots.Taken.{numbered_entries};
ghost use Rattle.server_core.specs.snapshot_writing.Told.{IsTold, DraftGoesOn};
ghost use Rattle.server_core.specs.snapshot_writing.Whole.{IsWholeSnapshot, AllTold, TablesTold};

use crate::snapshot_writing::bodies::{Unwritten, put_rest};
use crate::snapshot_writing::files::tell_files;
use crate::snapshot_writing::opens::tell_opens;
use crate::snapshot_writing::pieces::tell_base;
use crate::snapshot_writing::ranges::{tell_all_ranges, tell_guids, tell_ranges};
use base_outside::Renewal;
use journal::{Journal, Rewrite};
use journal_bytes::largest_law;
use std::alloc::Global;
use store_files::Tree;
use store_opens::Opens;

// What a file and an open take with a path or name of ordinary length, their parts, slots and ranges.
const FILE: u64 = 256;

const OPEN: u64 = 512;

// So many guids expire at most.
const MOST_EXPIRED: usize = 65536;

/// Writes a snapshot of the tables into a draft that has no bodies yet. Where memory runs out, or the disk has no room, it is given up,
/// and the journal goes on as it was.
pub fn write_snapshot<D: Renewal>(
    journal: &mut Journal<D>,
    rewrite: &mut Rewrite,
    alloc: Global,
    version: u32,
    tree: &Tree,
    opens: &Opens,
) -> Result<(), Unwritten>
    ensures whole { (s : Server) → Fits s → ShowsFiles tree.now s → ShowsOpens opens.now s → s.version ≡ version
        → (D.told → IsDrafted D.drafted journal.old.disk rewrite.old [])
        → OnOk result (IsWholeSnapshot D.told D.drafted journal.new.disk rewrite.new s) }
    ensures goes { DraftGoesOn D.told D.seen D.may_leave D.moment D.left_since D.faults journal.old journal.new result }
{
    let Ok(order) = tree.by_path() else {
        return Err(Unwritten::GivenUp);
    };
    let Ok(ids) = opens.ids() else {
        return Err(Unwritten::GivenUp);
    };
    let Ok(Some(guids)) = opens.guids() else {
        return Err(Unwritten::GivenUp);
    };
    // No reader takes the snapshot of a server that began no epoch, or of more guids than a server lets expire; none comes to either.
    let epoch = opens.epoch();
    if epoch == 0 {
        return Err(Unwritten::GivenUp);
    }
    if guids.len() > MOST_EXPIRED {
        return Err(Unwritten::GivenUp);
    }
    write_lists(
        journal,
        rewrite,
        alloc,
        version,
        tree,
        opens,
        order.as_slice(),
        ids.as_slice(),
        guids.as_slice(),
    )
}

// The same with the files in their order, the persistent opens and the guids.
fn write_lists<D: Renewal>(
    journal: &mut Journal<D>,
    rewrite: &mut Rewrite,
    alloc: Global,
    version: u32,
    tree: &Tree,
    opens: &Opens,
    order: &[u64],
    ids: &[u64],
    guids: &[(u128, u128)],
) -> Result<(), Unwritten>
    ensures whole { (s : Server) → Fits s → ShowsFiles tree.now s → ShowsOpens opens.now s → s.version ≡ version
        → IsPathOrder order.now s → ids.now ≡ persistent_in s.opened s.opens → AreExpired guids.now s
        → 0 < s.epoch → length guids.now ≤ 65536
        → (D.told → IsDrafted D.drafted journal.old.disk rewrite.old [])
        → OnOk result (IsWholeSnapshot D.told D.drafted journal.new.disk rewrite.new s) }
    ensures goes { DraftGoesOn D.told D.seen D.may_leave D.moment D.left_since D.faults journal.old journal.new result }
{
    largest_law();
    let mut body = Vec::new(alloc);
    match tell_all(
        journal, rewrite, &mut body, alloc, version, tree, opens, order, ids, guids,
    ) {
        Ok(()) => put_rest(journal, rewrite, &mut body),
        Err(error) => Err(error),
    }
}

// All pieces.
fn tell_all<D: Renewal>(
    journal: &mut Journal<D>,
    rewrite: &mut Rewrite,
    body: &mut Vec<u8>,
    alloc: Global,
    version: u32,
    tree: &Tree,
    opens: &Opens,
    order: &[u64],
    ids: &[u64],
    guids: &[(u128, u128)],
) -> Result<(), Unwritten>
    ensures told { (s : Server) (ps : List SnapshotPiece) → ShowsFiles tree.now s → ShowsOpens opens.now s → s.version ≡ version
        → IsPathOrder order.now s → ArePersistent s ids.now
        → IsTold D.told D.drafted journal.old.disk rewrite.old body.old.items ps
        → OnOk result (AllTold D.told D.drafted journal.new.disk rewrite.new body.new.items s order.now ids.now guids.now ps) }
    ensures goes { DraftGoesOn D.told D.seen D.may_leave D.moment D.left_since D.faults journal.old journal.new result }
{
    match tell_numbers(journal, rewrite, body, version, tree, opens) {
        Ok(()) => tell_tables(
            journal, rewrite, body, alloc, tree, opens, order, ids, guids,
        ),
        Err(error) => Err(error),
    }
}

// The numbers, and the times of the root.
fn tell_numbers<D: Renewal>(
    journal: &mut Journal<D>,
    rewrite: &mut Rewrite,
    body: &mut Vec<u8>,
    version: u32,
    tree: &Tree,
    opens: &Opens,
) -> Result<(), Unwritten>
    ensures told { (s : Server) (ps : List SnapshotPiece) → ShowsFiles tree.now s → ShowsOpens opens.now s → s.version ≡ version
        → IsTold D.told D.drafted journal.old.disk rewrite.old body.old.items ps
        → OnOk result (IsTold D.told D.drafted journal.new.disk rewrite.new body.new.items (ps ++ base_piece s ∷ [])) }
    ensures goes { DraftGoesOn D.told D.seen D.may_leave D.moment D.left_since D.faults journal.old journal.new result }
{
    let info = tree.info(0);
    let epoch = opens.epoch();
    let given = opens.given();
    let next = tree.next_file();
    tell_base(
        journal,
        rewrite,
        body,
        version,
        epoch,
        given,
        next,
        &info.basic,
    )
}

// The files, and what follows them.
fn tell_tables<D: Renewal>(
    journal: &mut Journal<D>,
    rewrite: &mut Rewrite,
    body: &mut Vec<u8>,
    alloc: Global,
    tree: &Tree,
    opens: &Opens,
    order: &[u64],
    ids: &[u64],
    guids: &[(u128, u128)],
) -> Result<(), Unwritten>
    ensures told { (s : Server) (ps : List SnapshotPiece) → ShowsFiles tree.now s → ShowsOpens opens.now s
        → IsPathOrder order.now s → ArePersistent s ids.now
        → IsTold D.told D.drafted journal.old.disk rewrite.old body.old.items ps
        → OnOk result (TablesTold D.told D.drafted journal.new.disk rewrite.new body.new.items s order.now ids.now guids.now ps) }
    ensures goes { DraftGoesOn D.told D.seen D.may_leave D.moment D.left_since D.faults journal.old journal.new result }
{
    match tell_files(journal, rewrite, body, alloc, tree, order) {
        Ok(()) => tell_back(journal, rewrite, body, alloc, opens, order, ids, guids),
        Err(error) => Err(error),
    }
}

// The opens, and what follows them.
fn tell_back<D: Renewal>(
    journal: &mut Journal<D>,
    rewrite: &mut Rewrite,
    body: &mut Vec<u8>,
    alloc: Global,
    opens: &Opens,
    order: &[u64],
    ids: &[u64],
    guids: &[(u128, u128)],
) -> Result<(), Unwritten>
    ensures told { (s : Server) (ps : List SnapshotPiece) → ShowsOpens opens.now s → ArePersistent s ids.now
        → IsTold D.told D.drafted journal.old.disk rewrite.old body.old.items ps
        → OnOk result (IsTold D.told D.drafted journal.new.disk rewrite.new body.new.items (ps ++ (open_pieces s ids.now ++ (range_pieces (ranges_that_stay s (s.ranges root)) ++ (all_range_pieces s (numbered_entries s order.now) ++ guid_pieces guids.now))))) }
    ensures goes { DraftGoesOn D.told D.seen D.may_leave D.moment D.left_since D.faults journal.old journal.new result }
{
    match tell_opens(journal, rewrite, body, alloc, opens, ids) {
        Ok(()) => tell_locks(journal, rewrite, body, opens, order, guids),
        Err(error) => Err(error),
    }
}

// The ranges of the root, and what follows them.
fn tell_locks<D: Renewal>(
    journal: &mut Journal<D>,
    rewrite: &mut Rewrite,
    body: &mut Vec<u8>,
    opens: &Opens,
    order: &[u64],
    guids: &[(u128, u128)],
) -> Result<(), Unwritten>
    ensures told { (s : Server) (ps : List SnapshotPiece) → ShowsOpens opens.now s
        → IsTold D.told D.drafted journal.old.disk rewrite.old body.old.items ps
        → OnOk result (IsTold D.told D.drafted journal.new.disk rewrite.new body.new.items (ps ++ (range_pieces (ranges_that_stay s (s.ranges root)) ++ (all_range_pieces s (numbered_entries s order.now) ++ guid_pieces guids.now)))) }
    ensures goes { DraftGoesOn D.told D.seen D.may_leave D.moment D.left_since D.faults journal.old journal.new result }
{
    match tell_ranges(journal, rewrite, body, opens, 0) {
        Ok(()) => tell_last(journal, rewrite, body, opens, order, guids),
        Err(error) => Err(error),
    }
}

// The ranges of the files, and the guids.
fn tell_last<D: Renewal>(
    journal: &mut Journal<D>,
    rewrite: &mut Rewrite,
    body: &mut Vec<u8>,
    opens: &Opens,
    order: &[u64],
    guids: &[(u128, u128)],
) -> Result<(), Unwritten>
    ensures told { (s : Server) (ps : List SnapshotPiece) → ShowsOpens opens.now s
        → IsTold D.told D.drafted journal.old.disk rewrite.old body.old.items ps
        → OnOk result (IsTold D.told D.drafted journal.new.disk rewrite.new body.new.items (ps ++ (all_range_pieces s (numbered_entries s order.now) ++ guid_pieces guids.now))) }
    ensures goes { DraftGoesOn D.told D.seen D.may_leave D.moment D.left_since D.faults journal.old journal.new result }
{
    match tell_all_ranges(journal, rewrite, body, opens, order) {
        Ok(()) => tell_guids(journal, rewrite, body, guids),
        Err(error) => Err(error),
    }
}

/// About how many bytes the snapshot will take. It is a hint: whether a compaction is worth its while rests on it, and nothing else.
pub fn snapshot_size(tree: &Tree, opens: &Opens) -> u64 {
    let files = (tree.count() as u64).saturating_mul(FILE);
    let kept = (opens.count() as u64).saturating_mul(OPEN);
    tree.held().saturating_add(files).saturating_add(kept)
}
