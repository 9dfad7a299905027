//! The durable part of a state, with its epochs and versions.
ghost use Rattle.std.specs.Prelude.{◌≡◌, ◌+◌, ◌++◌, ◌==◌, ◌&&◌, ℕ, not, true, OnOk};
ghost use Rattle.std.specs.BTreeSet.{IsOrdered, contains};
ghost use Rattle.std.specs.Ordering.{nat_cmp};
ghost use Rattle.spec_exchange.specs.Files.{exists, set_delete_pending};
ghost use Rattle.spec_exchange.specs.Fold.{begin_epoch, nothing_yet, set_version, sweep, unmark_records};
ghost use Rattle.spec_exchange.specs.Opens.{file_has_open, without_gone};
ghost use Rattle.spec_exchange.specs.Records.{origin_at};
ghost use Rattle.spec_exchange.specs.State.{Server};
ghost use Rattle.journal_bytes.specs.record_bytes.Meaning.{records_of};
ghost use Rattle.store_files.specs.file_tree.Shown.{ShowsFiles};
ghost use Rattle.store_opens.specs.open_table.Shown.{ShowsOpens};
ghost use Rattle.law_records.specs.fold.Order.{mark_at, marks_of, swept_of};
ghost use Rattle.server_core.specs.durable_state.Durable.{DurableShown};
ghost use Rattle.law_server.specs.tables.Fits.{Fits};

use journal_bytes::{Origin, Record, Records};
use std::alloc::{AllocError, Global};
use std::collections::BTreeSet;
use store_files::Tree;
use store_opens::Opens;

// The most that a configuration gives: what was written has to fold, whatever room the next server has.
/// The room for all files while records are folded, in bytes.
pub const FULL_ROOM: u64 = 1_125_899_906_842_624;

/// The part of a server's state that outlives a restart: version and epoch, files, persistent opens with their ranges, slots
/// and timeouts, and expired guids.
#[derive(Drop)]
pub struct Durable {
    pub alloc: Global,
    /// The version of the journal, 1 or 2.
    pub version: u32,
    /// The last epoch that began; 0 before the first.
    pub epoch: u32,
    /// Files by number and path.
    pub tree: Tree,
    /// The persistent opens, and expired guids.
    pub opens: Opens,
    /// Each file that is delete pending, and perhaps some that are not.
    pub(crate) pending: BTreeSet<u64>,
}

impl Durable {
    /// What no records stand for. It takes no memory.
    pub fn new(alloc: Global) -> Durable
        ensures { DurableShown result nothing_yet }
    {
        Durable {
            alloc,
            version: 1,
            epoch: 0,
            tree: Tree::new(alloc, FULL_ROOM),
            opens: Opens::new(alloc),
            pending: BTreeSet::new(alloc),
        }
    }

    // A new epoch removes, in order of their numbers, the delete pending files that have no open.
    pub(crate) fn begin_epoch(&mut self, number: u32)
        ensures { (s : Server) → Fits s → DurableShown self.old s → DurableShown self.new (begin_epoch s number) }
    {
        if self.is_next(number) {
            self.sweep();
            self.set_epoch(number);
        }
    }

    // The epoch behind the state's.
    fn is_next(&self, number: u32) -> bool
        ensures { (s : Server) → DurableShown self.now s → result ≡ (number == s.epoch + 1) }
    {
        number > 0 && number - 1 == self.epoch
    }

    fn set_epoch(&mut self, number: u32)
        ensures { (s : Server) → DurableShown self.old s
            → DurableShown self.new (record s { epoch = number; open_ids_given = 0; session_ids_given = 0 }) }
    {
        self.epoch = number;
        self.opens.begin_epoch(number);
    }

    fn sweep(&mut self)
        ensures { (s : Server) → DurableShown self.old s → DurableShown self.new (sweep s s.entries) }
    {
        sweep_files(&mut self.tree, &self.opens, &self.pending);
        self.forget_unmarked();
    }

    // Only what is there and delete pending is looked at by the next sweep.
    fn forget_unmarked(&mut self)
        ensures { (s : Server) → DurableShown self.old s → DurableShown self.new s }
    {
        let tree = &self.tree;
        self.pending.retain(|file| is_pending(tree, *file));
    }

    pub(crate) fn set_version(&mut self, number: u32)
        ensures { (s : Server) → DurableShown self.old s → DurableShown self.new (set_version s number) }
    {
        if self.is_newer(number) {
            self.version = 2;
        }
    }

    // Version 2 behind version 1.
    fn is_newer(&self, number: u32) -> bool
        ensures { (s : Server) → DurableShown self.now s → result ≡ ((number == 2) && (s.version == 1)) }
    {
        number == 2 && self.version == 1
    }

    /// Adds the records of the marks that a start clears: that each file is delete pending no longer that is so without an open.
    /// Behind a new epoch those are directories in which something stood at their turn.
    pub fn push_marks(&self, records: &mut Records) -> Result<(), AllocError>
        ensures { (s : Server) → Fits s → DurableShown self.now s
            → OnOk result (records_of records.new ≡ records_of records.old ++ unmark_records s s.entries) }
    {
        push_each(&self.tree, &self.opens, &self.pending, records)
    }

    // The file is delete pending from here on, or no longer.
    pub(crate) fn mark(&mut self, file: u64, marked: bool) -> Result<(), AllocError>
        ensures { (s : Server) → DurableShown self.old s → OnOk result (DurableShown self.new (set_delete_pending s file marked)) }
    {
        // First, since the set may find no memory: a marked file that it lacks would stay at the next sweep.
        self.note(file, marked)?;
        self.tree.mark(file, marked);
        Ok(())
    }

    // A file that is marked is looked at by the next sweep.
    pub(crate) fn note(&mut self, file: u64, marked: bool) -> Result<(), AllocError>
        ensures rest { self.new ≡ record self.old { pending = self.new.pending } }
        ensures before { OnOk result ((f : ℕ) → contains nat_cmp self.old.pending f ≡ true → contains nat_cmp self.new.pending f ≡ true) }
        ensures noted { OnOk result (marked ≡ true → contains nat_cmp self.new.pending file ≡ true) }
    {
        if !marked {
            return Ok(());
        }
        match self.pending.insert(file) {
            Ok(_) => Ok(()),
            Err(_) => Err(AllocError),
        }
    }
}

// The file is there and delete pending.
fn is_pending(tree: &Tree, file: u64) -> bool
    ensures { (s : Server) → ShowsFiles tree.now s → result ≡ (exists s file && s.delete_pending file) }
{
    tree.exists(file) && tree.info(file).marked
}

// Of these files those go that are delete pending and have no open, one after the other.
fn sweep_files(tree: &mut Tree, opens: &Opens, pending: &BTreeSet<u64>)
    ensures swept { (s : Server) → ShowsFiles tree.old s → ShowsOpens opens.now s → ShowsFiles tree.new (swept_of s pending.now.keys) }
    ensures ordered { IsOrdered nat_cmp pending.now }
{
    for file in pending {
        drop_gone(tree, opens, *file);
    }
}

// Of these files each is told that is delete pending and has no open.
fn push_each(
    tree: &Tree,
    opens: &Opens,
    pending: &BTreeSet<u64>,
    records: &mut Records,
) -> Result<(), AllocError>
    ensures told { (s : Server) → ShowsFiles tree.now s → ShowsOpens opens.now s
        → OnOk result (records_of records.new ≡ records_of records.old ++ marks_of s pending.now.keys) }
    ensures ordered { IsOrdered nat_cmp pending.now }
{
    for file in pending {
        push_mark(tree, opens, *file, records)?;
    }
    Ok(())
}

fn push_mark(tree: &Tree, opens: &Opens, file: u64, records: &mut Records) -> Result<(), AllocError>
    ensures { (s : Server) → ShowsFiles tree.now s → ShowsOpens opens.now s
        → OnOk result (records_of records.new ≡ records_of records.old ++ mark_at s file) }
{
    if !goes(tree, opens, file) {
        return Ok(());
    }
    records.push(Record::SetDelete {
        origin: no_message(),
        file,
        marked: false,
    })
}

// No message caused it, and no connection.
fn no_message() -> Origin
    ensures { result ≡ origin_at 0 }
{
    Origin {
        session: 0,
        connection: 0,
        message: 0,
    }
}

fn drop_gone(tree: &mut Tree, opens: &Opens, file: u64)
    ensures { (s : Server) → ShowsFiles tree.old s → ShowsOpens opens.now s → ShowsFiles tree.new (without_gone s file) }
{
    if goes(tree, opens, file) {
        let _ = tree.remove(file);
    }
}

// All of it but that no directory goes in which something stands.
fn goes(tree: &Tree, opens: &Opens, file: u64) -> bool
    ensures { (s : Server) → ShowsFiles tree.now s → ShowsOpens opens.now s
        → result ≡ (not (file == 0) && ((exists s file && s.delete_pending file) && not (file_has_open s file))) }
{
    if file == 0 {
        return false;
    }
    if !is_pending(tree, file) {
        return false;
    }
    !opens.has_open(file)
}
