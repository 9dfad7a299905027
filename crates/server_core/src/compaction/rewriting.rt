//! The journal as a snapshot of the tables: a draft is begun, the snapshot goes into it, and it takes the disk's place.
ghost use Rattle.std.specs.Prelude.{◌≡◌, ℕ, List, [], None};
ghost use Rattle.spec_exchange.specs.State as model;
ghost use Rattle.spec_wire.specs.journal.Moments.{LeavesOnly};
ghost use Rattle.law_server.specs.tables.Fits.{Fits};
ghost use Rattle.journal.specs.disk_journal.Journal.{JournalSettled};
ghost use Rattle.journal.specs.disk_journal.Rewrite.{IsDrafted};
ghost use Rattle.store_files.specs.file_tree.Shown.{ShowsFiles};
ghost use Rattle.store_opens.specs.open_table.Shown.{ShowsOpens};
ghost use Rattle.server_core.specs.snapshot_writing.Whole.{IsWholeSnapshot};
ghost use Rattle.server_core.specs.compaction.Compacts.{HasNewBodies, JournalRewrites, HasOldBodies, RewriteLeaves, given_up_by};

use crate::snapshot_writing::{Unwritten, write_snapshot};
use base_outside::{DiskStep, Renewal};
use journal::{Journal, JournalError, Rewrite};
use server_checks::EventError;
use std::alloc::Global;
use store_files::Tree;
use store_opens::Opens;

/// Writes the journal anew, as a snapshot of the tables. It is given up where memory runs out or the disk has no room; then the journal has
/// the bodies that it had. After `DiskFault` it isn't known which of both the disk has.
pub fn rewrite_journal<D: Renewal>(
    journal: &mut Journal<D>,
    alloc: Global,
    version: u32,
    tree: &Tree,
    opens: &Opens,
) -> Result<bool, EventError>
    ensures anew { (s : model.Server) → Fits s → ShowsFiles tree.now s → ShowsOpens opens.now s → s.version ≡ version
        → HasNewBodies D.told D.seen D.may_leave journal.new s result }
    ensures goes_on { D.told → (bodies : List (List ℕ)) → JournalSettled D.seen D.may_leave journal.old bodies
        → HasOldBodies D.seen D.may_leave journal.new bodies result }
    ensures any_moment { D.told → (s : model.Server) (bodies : List (List ℕ)) → Fits s → ShowsFiles tree.now s → ShowsOpens opens.now s
        → s.version ≡ version → JournalSettled D.seen D.may_leave journal.old bodies
        → LeavesOnly D.moment D.left_since journal.old.disk journal.new.disk (RewriteLeaves s bodies) }
    ensures cause { JournalRewrites D.faults journal.old result journal.new }
{
    match journal.begin_rewrite() {
        Ok(Some(rewrite)) => write_and_adopt(journal, rewrite, alloc, version, tree, opens),
        Ok(None) => Ok(false),
        Err(error) => given_up(&error),
    }
}

// The snapshot goes into a draft without bodies, which then takes the disk's place.
fn write_and_adopt<D: Renewal>(
    journal: &mut Journal<D>,
    rewrite: Rewrite,
    alloc: Global,
    version: u32,
    tree: &Tree,
    opens: &Opens,
) -> Result<bool, EventError>
    requires { journal.old.stopped ≡ None }
    ensures anew { (s : model.Server) → Fits s → ShowsFiles tree.now s → ShowsOpens opens.now s → s.version ≡ version
        → (D.told → IsDrafted D.drafted journal.old.disk rewrite [])
        → HasNewBodies D.told D.seen D.may_leave journal.new s result }
    ensures goes_on { D.told → (bodies : List (List ℕ)) → JournalSettled D.seen D.may_leave journal.old bodies
        → HasOldBodies D.seen D.may_leave journal.new bodies result }
    ensures any_moment { D.told → (s : model.Server) (bodies : List (List ℕ)) → Fits s → ShowsFiles tree.now s → ShowsOpens opens.now s
        → s.version ≡ version → (D.told → IsDrafted D.drafted journal.old.disk rewrite [])
        → JournalSettled D.seen D.may_leave journal.old bodies
        → LeavesOnly D.moment D.left_since journal.old.disk journal.new.disk (RewriteLeaves s bodies) }
    ensures cause { JournalRewrites D.faults journal.old result journal.new }
{
    let mut draft = rewrite;
    match write_snapshot(journal, &mut draft, alloc, version, tree, opens) {
        Ok(()) => adopt_draft(journal, &draft),
        Err(Unwritten::GivenUp) => Ok(false),
        Err(Unwritten::Fault(count)) => Err(EventError::DiskFault(count)),
    }
}

// A draft that has a whole snapshot takes the disk's place.
fn adopt_draft<D: Renewal>(journal: &mut Journal<D>, draft: &Rewrite) -> Result<bool, EventError>
    requires { journal.old.stopped ≡ None }
    ensures anew { (s : model.Server) → IsWholeSnapshot D.told D.drafted journal.old.disk draft.now s
        → HasNewBodies D.told D.seen D.may_leave journal.new s result }
    ensures goes_on { D.told → (bodies : List (List ℕ)) → JournalSettled D.seen D.may_leave journal.old bodies
        → HasOldBodies D.seen D.may_leave journal.new bodies result }
    ensures any_moment { D.told → (s : model.Server) (bodies : List (List ℕ))
        → IsWholeSnapshot D.told D.drafted journal.old.disk draft.now s → JournalSettled D.seen D.may_leave journal.old bodies
        → LeavesOnly D.moment D.left_since journal.old.disk journal.new.disk (RewriteLeaves s bodies) }
    ensures cause { JournalRewrites D.faults journal.old result journal.new }
{
    match journal.finish(draft) {
        Ok(DiskStep::Done) => Ok(true),
        Ok(DiskStep::NoRoom) => Ok(false),
        Err(error) => given_up(&error),
    }
}

// A refusal that is no fault of the disk gives the draft up.
fn given_up(error: &JournalError) -> Result<bool, EventError>
    ensures { result ≡ given_up_by error.now }
{
    match error {
        JournalError::DiskFault(count) => Err(EventError::DiskFault(*count)),
        JournalError::Stopped(count) => Err(EventError::Stopped(*count)),
        JournalError::Memory => Ok(false),
        JournalError::NotAJournal(_) => Ok(false),
        JournalError::Full(_, _) => Ok(false),
    }
}
