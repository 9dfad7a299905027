//! Space that the journal takes ahead, so that records to come don't make its file grow.
ghost use Rattle.std.specs.Prelude.{◌≡◌, ◌+◌, ◌≤◌, ℕ, Err, IfOk, IsTrue, List, None, Some, length};
ghost use Rattle.spec_exchange.specs.State as model;
ghost use Rattle.spec_journal.specs.Forms.{StandsFor};
ghost use Rattle.spec_wire.specs.journal.Moments.{LeavesOnly};
ghost use Rattle.law_snapshots.specs.snapshots.Pieces.{SnapshotPiece};
ghost use Rattle.server_checks.specs.declared.setups.error.EventError.TheVariants as errors;
ghost use Rattle.server_core.specs.Shown.{HoldsServerOver, config_of, disk_of, journal_of, state_of, stopped_of};
ghost use Rattle.server_core.specs.journaled_tables.Holds.{JournaledGoesOn};
ghost use Rattle.server_core.specs.body_writing.Bodies.{event_error_of, stopped_by};
ghost use Rattle.server_core.specs.space_ahead.Space.{TakesSpace};
ghost use Rattle.spec_world.specs.Ends.{Logons};

use crate::journaled_tables::ServerState;
use crate::server::Server;
use base_outside::TellsRoom;
use journal::JournalError;
use server_checks::EventError;

// What a refusal of the journal is to the server, which stops where the disk failed.
fn note<D: TellsRoom>(state: &mut ServerState<D>, error: &JournalError) -> EventError
    ensures told { result ≡ event_error_of error.now }
    ensures noted { state.new ≡ record state.old { stopped = stopped_by result state.old.stopped } }
{
    match error {
        JournalError::DiskFault(count) => {
            state.stopped = Some(*count);
            EventError::DiskFault(*count)
        }
        JournalError::Stopped(count) => EventError::Stopped(*count),
        JournalError::Memory => EventError::Memory,
        JournalError::NotAJournal(_) => EventError::Memory,
        JournalError::Full(_, _) => EventError::Memory,
    }
}

impl<D: TellsRoom> Server<D> {
    /// Has the journal take space ahead, where little is left: room of the disk behind its end, in which records to come are written
    /// without making the file grow. What the server holds and its disk stands for is as before, and so is what a crash at any moment
    /// leaves. `false` where the disk has no room.
    ///
    /// `Memory`: nothing was written. `DiskFault` comes only where the disk's count of faults rose, and carries it: from then on each
    /// event answers `Stopped` with that count.
    pub fn take_ahead(&mut self) -> Result<bool, EventError>
        ensures takes { (base : List SnapshotPiece) (s : model.Server) (L : Logons) (records : List model.Record)
            → HoldsServerOver D.told D.seen D.may_leave base self.old s L records
            → TakesSpace D.told D.seen D.may_leave D.faults base (state_of self.old) (state_of self.new) s L records result }
        ensures ahead { D.told → (base : List SnapshotPiece) (s : model.Server) (L : Logons) (records : List model.Record)
            (bodies : List (List ℕ)) → HoldsServerOver D.told D.seen D.may_leave base self.old s L records
            → JournaledGoesOn D.seen D.may_leave base (state_of self.old) s records bodies
            → IfOk result (λ whole. IsTrue whole → (journal_of self.new).end + 4194304 ≤ length (D.seen (disk_of self.new))) }
        ensures any_moment { D.told → (base : List SnapshotPiece) (s : model.Server) (L : Logons) (records : List model.Record)
            (bodies : List (List ℕ)) → HoldsServerOver D.told D.seen D.may_leave base self.old s L records
            → JournaledGoesOn D.seen D.may_leave base (state_of self.old) s records bodies
            → LeavesOnly D.moment D.left_since (disk_of self.old) (disk_of self.new) (λ c. StandsFor c bodies) }
        ensures stopped { (count : ℕ) → stopped_of self.old ≡ Some count
            → (result ≡ Err (errors.Stopped count)) × (self.new ≡ self.old) }
        ensures config { config_of self.new ≡ config_of self.old }
        ensures used { (journal_of self.new).used ≡ (journal_of self.old).used }
        ensures calm { stopped_of self.new ≡ None → D.faults (disk_of self.new) ≡ D.faults (disk_of self.old) }
    {
        if let Some(count) = self.state.stopped {
            return Err(EventError::Stopped(count));
        }
        match self.state.journal.take_ahead() {
            Ok(whole) => Ok(whole),
            Err(error) => Err(note(&mut self.state, &error)),
        }
    }
}
