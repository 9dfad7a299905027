//! The server's step over its tables and its journal.
ghost use Rattle.std.specs.Prelude.{◌≡◌, ℕ, Err, IfErr, IfOk, List, MatchResult, None, Some, false, if◌then◌else◌, true};
ghost use Rattle.spec_exchange.specs.State as model;
ghost use Rattle.spec_exchange.specs.Step.{due, step, with_deadlines};
ghost use Rattle.store_files.specs.file_tree.Stored.{AreFiles};
ghost use Rattle.spec_journal.specs.Forms.{StandsFor};
ghost use Rattle.spec_wire.specs.journal.Moments.{LeavesOnly};
ghost use Rattle.server_checks.specs.event_heard.Heard.{heard_event, is_setup_heard};
ghost use Rattle.server_checks.specs.declared.event_heard.event.ServerEvent.{ServerEvent};
ghost use Rattle.law_snapshots.specs.snapshots.Pieces.{SnapshotPiece};
ghost use Rattle.server_core.specs.server_start.Begun.{ServerBegins};
ghost use Rattle.server_core.specs.event_step.Early.{HasMemory, is_refused_early};
ghost use Rattle.server_core.specs.journaled_tables.Beside.{logons_behind};
ghost use Rattle.server_core.specs.journaled_tables.Holds.{EventLeavesBodies, EventRefused, JournaledGoesOn, StepAnswers};
ghost use Rattle.server_core.specs.journaled_tables.Shown.{ServerShown};
ghost use Rattle.server_checks.specs.setups.Setups.{progress_of};
ghost use Rattle.server_checks.specs.declared.setups.error.EventError.TheVariants as errors;
ghost use Rattle.server_core.specs.restart_tables.Restart.{RestartLeaves, StartRefused};
ghost use Rattle.spec_world.specs.Ends.{Logons};

use crate::compaction::compact_state;
use crate::event_step::answer_event;
use crate::journaled_tables::ServerState;
use crate::server_start::recover_state;
use crate::signing::signer_of;
use crate::snapshot_writing::snapshot_size;
use crate::standing::standing_of;
use base_outside::{Disk, Renewal, Standing};
use journal::RefusedStart;
use server_checks::{Config, EventError, ServerEvent, Tables};
use server_effects::Answer;
use spec_crypto::Signer;
use spec_journal::Form;
use std::alloc::{AllocError, Global};
use store_files::StoredFile;

/// An SMB 3.1.1 server's state, with the journal that outlives it.
#[derive(Drop)]
pub struct Server<D: Disk> {
    pub(crate) state: ServerState<D>,
}

impl<D: Disk> Server<D> {
    ghost use Rattle.server_core.specs.Shown.{HoldsServerOver, config_of, disk_of, has_no_sums, journal_of, state_of, stopped_of};

    /// A server on the disk that an earlier one left, or on an empty one: it holds what the journal's records stand for, under the
    /// next epoch, which goes into the journal.
    ///
    /// `NotAJournal` has the place where the bytes are no journal, or the gate of the first body that no server writes; `Full` what the
    /// journal would use with the epoch, and its limit; `DiskFault` the count of faults, which rose; `Memory` may come at any read.
    /// Where it refuses, it hands back the disk: as it was where its bytes break the grammar, and else with the bodies that it stood
    /// for, where it failed maybe with the epoch's behind them.
    pub fn recover(alloc: Global, disk: D, config: Config) -> Result<Server<D>, RefusedStart<D>>
        ensures holds { IfOk result (λ c. ServerBegins D.told D.seen D.may_leave D.faults config disk (state_of c)) }
        ensures refused { IfErr result (λ r. StartRefused D.told D.seen D.may_leave D.moment D.left_since D.faults disk r.disk r.cause) }
        ensures any_moment { IfOk result (λ c. D.told → (all : List (List ℕ)) → StandsFor (D.seen disk) all
            → LeavesOnly D.moment D.left_since disk (disk_of c) (RestartLeaves (D.may_leave disk) all)) }
        ensures config { IfOk result (λ c. config_of c ≡ config) }
    {
        match recover_state(alloc, disk, config) {
            Ok(state) => Ok(Server { state }),
            Err(refused) => Err(refused),
        }
    }

    /// One event: in front of it an open that expires, behind it what the journal holds. All memory is taken first, then the
    /// records go onto the disk as one body, and then the tables follow, so that an answer is given where its records stand.
    ///
    /// `Memory`: the state is as before, or is changed by the expiry of one open alone, whose records then stand in a body of
    /// their own. Where no open is due, it is never the answer to a message that the checks of its session, or of signing and
    /// sealing, refuse, but for a SESSION_SETUP with its bytes. `DiskFault` comes only where the disk's count of faults rose, and
    /// carries it: the tables have the event's change, and each later event answers `Stopped` with that count and changes nothing.
    pub fn event(&mut self, now: u64, event: ServerEvent<'_>) -> Result<Answer, EventError>
        ensures step { (base : List SnapshotPiece) (s : model.Server) (L : Logons) (records : List model.Record)
            → HoldsServerOver D.told D.seen D.may_leave base self.old s L records
            → let e = heard_event (config_of self.old).users L s event.entry in MatchResult result
            (λ r. StepAnswers D.told D.seen D.may_leave base (state_of self.new) s L records now event.entry r (step s now e))
            (λ x. EventRefused D.told D.seen D.may_leave base D.faults x (state_of self.old) (state_of self.new) s L records now e
            (logons_behind (config_of self.old).users L event.entry now (progress_of e (step s now e).reply))) }
        ensures any_moment { D.told
            → (base : List SnapshotPiece) (s : model.Server) (L : Logons) (records : List model.Record) (bodies : List (List ℕ))
            → HoldsServerOver D.told D.seen D.may_leave base self.old s L records
            → JournaledGoesOn D.seen D.may_leave base (state_of self.old) s records bodies
            → LeavesOnly D.moment D.left_since (disk_of self.old) (disk_of self.new)
            (EventLeavesBodies s now (heard_event (config_of self.old).users L s event.entry) bodies) }
        ensures stopped { (count : ℕ) → stopped_of self.old ≡ Some count
            → (result ≡ Err (errors.Stopped count)) × (self.new ≡ self.old) }
        ensures config { config_of self.new ≡ config_of self.old }
        ensures early { (base : List SnapshotPiece) (s : model.Server) (L : Logons) (records : List model.Record)
            → HoldsServerOver D.told D.seen D.may_leave base self.old s L records → is_setup_heard event.entry ≡ false
            → due (with_deadlines s now) now ≡ None
            → is_refused_early s (heard_event (config_of self.old).users L s event.entry) ≡ true → HasMemory result }
    {
        answer_event(&mut self.state, now, event)
    }

    /// The share, its room, who may log on and whether sessions are sealed, as the server began with them.
    pub fn config(&self) -> &Config
        ensures { result.now ≡ config_of self.now }
    {
        &self.state.tables.config
    }

    /// What it holds but for its journal, for whoever asks whether a LOCK would wait.
    pub fn tables(&self) -> &Tables
        ensures { result.now ≡ (state_of self.now).tables }
    {
        &self.state.tables
    }

    /// The count of faults at which a call of the disk failed.
    pub fn stopped(&self) -> Option<u64>
        ensures { result ≡ stopped_of self.now }
    {
        self.state.stopped
    }

    /// With what the own key of a session signs, where it is live: not that of one of its channels (MS-SMB2 3.3.1.8).
    pub fn signer(&self, session: u64) -> Option<Signer>
        ensures { (base : List SnapshotPiece) (s : model.Server) (L : Logons) (records : List model.Record)
            → HoldsServerOver D.told D.seen D.may_leave base self.now s L records
            → result ≡ (if s.present session then Some (L.keys session).signing else None) }
    {
        signer_of(&self.state.tables.sessions, session)
    }

    /// All files, no directories, in byte order of their paths, with their bytes.
    pub fn files(&self) -> Result<Vec<StoredFile>, AllocError>
        ensures { IfOk result (λ v. (s : model.Server) (L : Logons) → ServerShown (state_of self.now).tables s L
            → AreFiles v.items s) }
    {
        match self.state.tables.tree.files() {
            Ok(files) => Ok(files),
            Err(error) => Err(error),
        }
    }

    /// What a connection has here, for whoever waits for its peer. No contract rests on it.
    pub fn standing(&self, connection: u32) -> Standing {
        standing_of(&self.state.tables, connection)
    }

    /// How many files and directories there are, and how many bytes all files have.
    pub fn size(&self) -> (u64, u64) {
        let tree = &self.state.tables.tree;
        (tree.count() as u64, tree.held())
    }

    /// How many bytes its journal uses, but for checksums.
    pub fn used(&self) -> u64
        ensures { result ≡ (journal_of self.now).used }
    {
        self.state.journal.used()
    }

    /// About how many bytes a snapshot of it would take. No contract rests on it.
    pub fn snapshot_size(&self) -> u64 {
        snapshot_size(&self.state.tables.tree, &self.state.tables.opens)
    }

    /// Whether the journal's entries have no checksums, as those of earlier programs.
    pub fn is_first_form(&self) -> bool
        ensures { result ≡ has_no_sums (journal_of self.now).form }
    {
        match self.state.journal.form() {
            Form::Plain => true,
            Form::Summed => false,
        }
    }

    /// Hands back the disk.
    pub fn stop(self) -> D
        ensures { result ≡ disk_of self }
    {
        let Server { state } = self;
        let ServerState { journal, .. } = state;
        journal.stop()
    }
}

impl<D: Renewal> Server<D> {
    ghost use Rattle.server_core.specs.Shown.{HoldsServerOver, config_of, disk_of, state_of, stopped_of};
    ghost use Rattle.server_core.specs.compaction.Compacts.{CompactionHalts, CompactionLeaves, Compacts};

    /// Writes the journal anew, with checksums, as a snapshot of what the server holds: in a draft beside the disk, which then takes its
    /// place. `true` where that was done: the state is as before but for the bytes that the journal uses, and the disk stands for it by
    /// the snapshot alone. `false` where memory ran out or the disk has no room for the draft: all goes on as before. A crash at any
    /// moment leaves what stood for the server before, or a snapshot that stands for it.
    ///
    /// `DiskFault` comes only where the disk's count of faults rose, and carries it: the tables are as before, but which of both the disk
    /// has isn't known, and each later call answers `Stopped` with that count and changes nothing. Else the count stays. `Memory` never
    /// comes.
    pub fn compact(&mut self) -> Result<bool, EventError>
        ensures compacts { (base : List SnapshotPiece) (s : model.Server) (L : Logons) (records : List model.Record)
            → HoldsServerOver D.told D.seen D.may_leave base self.old s L records
            → Compacts D.told D.seen D.may_leave D.faults base (state_of self.old) (state_of self.new) s L records result }
        ensures any_moment { D.told
            → (base : List SnapshotPiece) (s : model.Server) (L : Logons) (records : List model.Record) (bodies : List (List ℕ))
            → HoldsServerOver D.told D.seen D.may_leave base self.old s L records
            → JournaledGoesOn D.seen D.may_leave base (state_of self.old) s records bodies
            → LeavesOnly D.moment D.left_since (disk_of self.old) (disk_of self.new) (CompactionLeaves s bodies) }
        ensures stopped { (count : ℕ) → stopped_of self.old ≡ Some count
            → (result ≡ Err (errors.Stopped count)) × (self.new ≡ self.old) }
        ensures config { config_of self.new ≡ config_of self.old }
        ensures calm { IfOk result (λ done. D.faults (disk_of self.new) ≡ D.faults (disk_of self.old)) }
        ensures halts { CompactionHalts (stopped_of self.old) (stopped_of self.new) result }
    {
        compact_state(&mut self.state)
    }
}
