//! Pieces of a snapshot, each put behind those that are gathered.
ghost use Rattle.std.specs.Prelude.{◌≡◌, ◌<◌, ◌++◌, ◌∷◌, [], List, length, OnOk};
ghost use Rattle.law_snapshots.specs.snapshots.Pieces.{SnapshotPiece, BasePiece, FilePiece, BytesPiece, OpenPiece, SlotPiece, RangePiece, GuidPiece};
ghost use Rattle.journal_bytes.specs.record_bytes.Grammar.{TextFits};
ghost use Rattle.journal_bytes.specs.piece_bytes.Meaning.{row_of};
ghost use Rattle.server_core.specs.snapshot_writing.Told.{IsTold, DraftGoesOn};

use crate::snapshot_writing::bodies::{Unwritten, pass_on};
use base_outside::Renewal;
use journal::{Journal, Rewrite};
use journal_bytes::{
    FileFront, OpenFront, put_base, put_bytes, put_file, put_guid, put_open, put_range, put_slot,
};
use spec_exchange::values::{Basic, Range};
use std::alloc::Global;
use wire_bytes::Text;

/// The numbers, and the times of the root.
pub fn tell_base<D: Renewal>(
    journal: &mut Journal<D>,
    rewrite: &mut Rewrite,
    body: &mut Vec<u8>,
    version: u32,
    epoch: u32,
    given: u32,
    next_file: u64,
    times: &Basic,
) -> Result<(), Unwritten>
    ensures told { (ps : List SnapshotPiece) → IsTold D.told D.drafted journal.old.disk rewrite.old body.old.items ps
        → OnOk result (IsTold D.told D.drafted journal.new.disk rewrite.new body.new.items (ps ++ BasePiece version epoch given next_file times.now ∷ [])) }
    ensures goes { DraftGoesOn D.told D.seen D.may_leave D.moment D.left_since D.faults journal.old journal.new result }
{
    match put_base(body, version, epoch, given, next_file, times) {
        Ok(()) => pass_on(journal, rewrite, body),
        Err(_) => Err(Unwritten::GivenUp),
    }
}

/// A file or directory.
pub fn tell_file<D: Renewal>(
    journal: &mut Journal<D>,
    rewrite: &mut Rewrite,
    body: &mut Vec<u8>,
    alloc: Global,
    file: u64,
    path: &Text,
    front: &FileFront,
) -> Result<(), Unwritten>
    requires { TextFits path.now }
    ensures told { (ps : List SnapshotPiece) → IsTold D.told D.drafted journal.old.disk rewrite.old body.old.items ps
        → OnOk result (IsTold D.told D.drafted journal.new.disk rewrite.new body.new.items (ps ++ FilePiece file path.now front.now.directory front.now.pending front.now.basic
        front.now.size front.now.stored ∷ [])) }
    ensures goes { DraftGoesOn D.told D.seen D.may_leave D.moment D.left_since D.faults journal.old journal.new result }
{
    match put_file(alloc, body, file, path, front) {
        Ok(()) => pass_on(journal, rewrite, body),
        Err(_) => Err(Unwritten::GivenUp),
    }
}

/// Bytes of a file.
pub fn tell_bytes<D: Renewal>(
    journal: &mut Journal<D>,
    rewrite: &mut Rewrite,
    body: &mut Vec<u8>,
    file: u64,
    at: u64,
    bytes: &[u8],
) -> Result<(), Unwritten>
    requires { length bytes.now < 4294967296 }
    ensures told { (ps : List SnapshotPiece) → IsTold D.told D.drafted journal.old.disk rewrite.old body.old.items ps
        → OnOk result (IsTold D.told D.drafted journal.new.disk rewrite.new body.new.items (ps ++ BytesPiece file at bytes.now ∷ [])) }
    ensures goes { DraftGoesOn D.told D.seen D.may_leave D.moment D.left_since D.faults journal.old journal.new result }
{
    match put_bytes(body, file, at, bytes) {
        Ok(()) => pass_on(journal, rewrite, body),
        Err(_) => Err(Unwritten::GivenUp),
    }
}

/// A persistent open.
pub fn tell_open<D: Renewal>(
    journal: &mut Journal<D>,
    rewrite: &mut Rewrite,
    body: &mut Vec<u8>,
    alloc: Global,
    id: u64,
    user: &Text,
    front: &OpenFront,
) -> Result<(), Unwritten>
    requires { TextFits user.now }
    ensures told { (ps : List SnapshotPiece) → IsTold D.told D.drafted journal.old.disk rewrite.old body.old.items ps
        → OnOk result (IsTold D.told D.drafted journal.new.disk rewrite.new body.new.items (ps ++ OpenPiece id (row_of user.now front.now) ∷ [])) }
    ensures goes { DraftGoesOn D.told D.seen D.may_leave D.moment D.left_since D.faults journal.old journal.new result }
{
    match put_open(alloc, body, id, user, front) {
        Ok(()) => pass_on(journal, rewrite, body),
        Err(_) => Err(Unwritten::GivenUp),
    }
}

/// What a slot of an open keeps.
pub fn tell_slot<D: Renewal>(
    journal: &mut Journal<D>,
    rewrite: &mut Rewrite,
    body: &mut Vec<u8>,
    id: u64,
    index: u8,
    number: u8,
    status: u32,
) -> Result<(), Unwritten>
    ensures told { (ps : List SnapshotPiece) → IsTold D.told D.drafted journal.old.disk rewrite.old body.old.items ps
        → OnOk result (IsTold D.told D.drafted journal.new.disk rewrite.new body.new.items (ps ++ SlotPiece id index number status ∷ [])) }
    ensures goes { DraftGoesOn D.told D.seen D.may_leave D.moment D.left_since D.faults journal.old journal.new result }
{
    match put_slot(body, id, index, number, status) {
        Ok(()) => pass_on(journal, rewrite, body),
        Err(_) => Err(Unwritten::GivenUp),
    }
}

/// A range that an open locks.
pub fn tell_range<D: Renewal>(
    journal: &mut Journal<D>,
    rewrite: &mut Rewrite,
    body: &mut Vec<u8>,
    range: &Range,
) -> Result<(), Unwritten>
    ensures told { (ps : List SnapshotPiece) → IsTold D.told D.drafted journal.old.disk rewrite.old body.old.items ps
        → OnOk result (IsTold D.told D.drafted journal.new.disk rewrite.new body.new.items (ps ++ RangePiece range.now ∷ [])) }
    ensures goes { DraftGoesOn D.told D.seen D.may_leave D.moment D.left_since D.faults journal.old journal.new result }
{
    match put_range(body, range) {
        Ok(()) => pass_on(journal, rewrite, body),
        Err(_) => Err(Unwritten::GivenUp),
    }
}

/// The guids of an open that expired.
pub fn tell_guid<D: Renewal>(
    journal: &mut Journal<D>,
    rewrite: &mut Rewrite,
    body: &mut Vec<u8>,
    client: u128,
    guid: u128,
) -> Result<(), Unwritten>
    ensures told { (ps : List SnapshotPiece) → IsTold D.told D.drafted journal.old.disk rewrite.old body.old.items ps
        → OnOk result (IsTold D.told D.drafted journal.new.disk rewrite.new body.new.items (ps ++ GuidPiece client guid ∷ [])) }
    ensures goes { DraftGoesOn D.told D.seen D.may_leave D.moment D.left_since D.faults journal.old journal.new result }
{
    match put_guid(body, client, guid) {
        Ok(()) => pass_on(journal, rewrite, body),
        Err(_) => Err(Unwritten::GivenUp),
    }
}
