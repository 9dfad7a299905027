//! Files of a snapshot: each with its bytes part by part, in the order of their paths.
ghost use Rattle.std.specs.Prelude.{◌≡◌, ◌++◌, ◌∷◌, [], ℕ, List, true, length, OnOk};
ghost use Rattle.spec_exchange.specs.State.{Server};
ghost use Rattle.spec_exchange.specs.Files.{exists_in};
ghost use Rattle.law_snapshots.specs.snapshots.Pieces.{SnapshotPiece};
ghost use Rattle.store_files.specs.file_tree.Shown.{ShowsFiles};
ghost use Rattle.store_files.specs.file_tree.Placed.{Once};
ghost use Rattle.server_core.specs.snapshot_writing.Told.{IsTold, DraftGoesOn};
ghost use Rattle.server_core.specs.snapshot_writing.Files.{PartsTold, FileTold, FilesTold, AreFilesOf, front_piece, IsFrontOf};

use crate::snapshot_writing::bodies::Unwritten;
use crate::snapshot_writing::pieces::{tell_bytes, tell_file};
use base_outside::Renewal;
use journal::{Journal, Rewrite};
use journal_bytes::{FileFront, is_short};
use std::alloc::Global;
use store_files::Tree;

// The most bytes of a file that one piece tells.
const MOST: usize = 1_048_576;

/// Tells the files, each behind the directory in which it stands where they are in the order of their paths.
pub fn tell_files<D: Renewal>(
    journal: &mut Journal<D>,
    rewrite: &mut Rewrite,
    body: &mut Vec<u8>,
    alloc: Global,
    tree: &Tree,
    order: &[u64],
) -> Result<(), Unwritten>
    ensures told { (s : Server) (ps : List SnapshotPiece) → ShowsFiles tree.now s → AreFilesOf s order.now → Once order.now
        → IsTold D.told D.drafted journal.old.disk rewrite.old body.old.items ps
        → OnOk result (FilesTold D.told D.drafted journal.new.disk rewrite.new body.new.items s order.now ps) }
    ensures goes { DraftGoesOn D.told D.seen D.may_leave D.moment D.left_since D.faults journal.old journal.new result }
{
    for file in order {
        match tell_one(journal, rewrite, body, alloc, tree, *file) {
            Ok(()) => {}
            Err(error) => return Err(error),
        }
    }
    Ok(())
}

// A file or directory with its bytes.
fn tell_one<D: Renewal>(
    journal: &mut Journal<D>,
    rewrite: &mut Rewrite,
    body: &mut Vec<u8>,
    alloc: Global,
    tree: &Tree,
    file: u64,
) -> Result<(), Unwritten>
    ensures told { (s : Server) (ps : List SnapshotPiece) → ShowsFiles tree.now s → exists_in s.entries file ≡ true
        → IsTold D.told D.drafted journal.old.disk rewrite.old body.old.items ps
        → OnOk result (FileTold D.told D.drafted journal.new.disk rewrite.new body.new.items s file ps) }
    ensures goes { DraftGoesOn D.told D.seen D.may_leave D.moment D.left_since D.faults journal.old journal.new result }
{
    match tell_front(journal, rewrite, body, alloc, tree, file) {
        Ok(()) => tell_parts(journal, rewrite, body, tree, file),
        Err(error) => Err(error),
    }
}

// A file or directory, but for its bytes. Where its path is longer than a piece can tell, the snapshot is given up.
fn tell_front<D: Renewal>(
    journal: &mut Journal<D>,
    rewrite: &mut Rewrite,
    body: &mut Vec<u8>,
    alloc: Global,
    tree: &Tree,
    file: u64,
) -> Result<(), Unwritten>
    ensures told { (s : Server) (ps : List SnapshotPiece) → ShowsFiles tree.now s → exists_in s.entries file ≡ true
        → IsTold D.told D.drafted journal.old.disk rewrite.old body.old.items ps
        → OnOk result (IsTold D.told D.drafted journal.new.disk rewrite.new body.new.items (ps ++ front_piece s file ∷ [])) }
    ensures goes { DraftGoesOn D.told D.seen D.may_leave D.moment D.left_since D.faults journal.old journal.new result }
{
    let Some(path) = tree.text(file) else {
        return Err(Unwritten::GivenUp);
    };
    if !is_short(path.as_str()) {
        return Err(Unwritten::GivenUp);
    }
    let front = front_of(tree, file);
    tell_file(journal, rewrite, body, alloc, file, path, &front)
}

// What is told of a file beside its path.
fn front_of(tree: &Tree, file: u64) -> FileFront
    ensures { (s : Server) → ShowsFiles tree.now s → exists_in s.entries file ≡ true → IsFrontOf result s file }
{
    let info = tree.info(file);
    FileFront {
        directory: info.directory,
        pending: info.marked,
        basic: info.basic,
        size: info.length,
        stored: 0,
    }
}

// The bytes of a file.
fn tell_parts<D: Renewal>(
    journal: &mut Journal<D>,
    rewrite: &mut Rewrite,
    body: &mut Vec<u8>,
    tree: &Tree,
    file: u64,
) -> Result<(), Unwritten>
    ensures told { (s : Server) (ps : List SnapshotPiece) → ShowsFiles tree.now s → exists_in s.entries file ≡ true
        → IsTold D.told D.drafted journal.old.disk rewrite.old body.old.items ps
        → OnOk result (PartsTold D.told D.drafted journal.new.disk rewrite.new body.new.items s file ps) }
    ensures goes { DraftGoesOn D.told D.seen D.may_leave D.moment D.left_since D.faults journal.old journal.new result }
{
    let length = tree.length(file);
    let mut at = 0;
    while at < length {
        let Some((place, bytes)) = tree.part_from(file, at, MOST) else {
            return Ok(());
        };
        match tell_bytes(journal, rewrite, body, file, place, bytes) {
            Ok(()) => at = place.saturating_add(bytes.len() as u64),
            Err(error) => return Err(error),
        }
    }
    Ok(())
}
