//! The body on the disk, and the change of the tables behind it.
ghost use Rattle.std.specs.Prelude.{◌≡◌, ◌++◌, ℕ};
ghost use Rattle.std.specs.Prelude.{List, OnOk};
ghost use Rattle.spec_exchange.specs.State as model;
ghost use Rattle.spec_exchange.specs.Step.{carried_out, with_deadlines};
ghost use Rattle.spec_wire.specs.journal.Moments.{LeavesOnly};
ghost use Rattle.journal.specs.disk_journal.Journal.{JournalSettled};
ghost use Rattle.server_checks.specs.event_heard.Heard.{event_of, heard_event};
ghost use Rattle.server_checks.specs.declared.event_heard.event.ServerEvent.{ServerEvent};
ghost use Rattle.journal_bytes.specs.record_bodies.Body.{bodies_of};
ghost use Rattle.server_core.specs.commit_event.Commits.{BesideCommitted, Commits};
ghost use Rattle.server_checks.specs.setups.Setups.{progress_of};
ghost use Rattle.server_core.specs.journaled_tables.Heard.{IsJournaledHeard};
ghost use Rattle.server_core.specs.journaled_tables.Rooms.{HasRoomToWrite};
ghost use Rattle.server_core.specs.journaled_tables.Rulings.{MayRule};
ghost use Rattle.law_server.specs.tables.Fits.{Fits};
ghost use Rattle.server_effects.specs.prepared_event.Prepared.{IsPrepared, RoomToCarry, prepared_ruling};
ghost use Rattle.server_core.specs.recording.Writes.{WritesBut};
ghost use Rattle.server_plan.specs.rulings.Rulings.{AbleToRule};
ghost use Rattle.server_plan.specs.logon_steps.Steps.{PreparedStep};
ghost use Rattle.server_core.specs.body_writing.Bodies.{LeavesOf};
ghost use Rattle.server_checks.specs.session_table.Logons.{LogonsShown};
ghost use Rattle.spec_crypto.specs.tokens.Tokens.{Users};
ghost use Rattle.spec_world.specs.Ends.{Logons};

use crate::body_writing::used_behind;
use crate::first_deadlines::carry_dated;
use crate::journaled_tables::ServerState;
use crate::recording::write;
use base_outside::Disk;
use law_records::carried_law;
use server_checks::{Asked, EventError};
use server_effects::{Answer, Prepared};

/// Writes the body, and carries out what it stands for, at `now` (100 ns since 1601). Where the disk fails the tables follow all the
/// same, but for the journal's bytes, and there is no answer.
pub fn commit<D: Disk>(
    server: &mut ServerState<D>,
    asked: &Asked<'_>,
    prepared: Prepared,
    body: &[u8],
    now: u64,
) -> Result<Answer, EventError>
    requires { RoomToCarry server.old.tables asked.now prepared × HasRoomToWrite server.old body.now }
    ensures shown { (s : model.Server) → Fits s → IsPrepared server.old.tables s now (event_of asked.now) prepared
        → AbleToRule s (prepared_ruling (event_of asked.now) prepared)
        → Commits s (carried_out (with_deadlines s now) now (prepared_ruling (event_of asked.now) prepared)) body.now result server.new }
    ensures beside { (users : Users) (s : model.Server) (L : Logons) (e : ServerEvent) → Fits s
        → IsPrepared server.old.tables s now (event_of asked.now) prepared
        → MayRule s (event_of asked.now) (prepared_ruling (event_of asked.now) prepared)
        → AbleToRule s (prepared_ruling (event_of asked.now) prepared)
        → IsJournaledHeard users L s e asked.now → LogonsShown server.old.tables.sessions L.keys L.pending
        → PreparedStep L asked.now now prepared
        → BesideCommitted server.new users L e now (progress_of (heard_event users L s e)
        (carried_out (with_deadlines s now) now (prepared_ruling (event_of asked.now) prepared)).reply) result }
    ensures writes { WritesBut D.faults server.old body.now result server.new }
    ensures acknowledged { D.told → (bodies : List (List ℕ)) → JournalSettled D.seen D.may_leave server.old.journal bodies
        → OnOk result (JournalSettled D.seen D.may_leave server.new.journal (bodies ++ bodies_of body.now)) }
    ensures any_moment { D.told → (bodies : List (List ℕ)) → JournalSettled D.seen D.may_leave server.old.journal bodies
        → LeavesOnly D.moment D.left_since server.old.journal.disk server.new.journal.disk (LeavesOf bodies body.now) }
    ensures config { server.new.tables.config ≡ server.old.tables.config }
{
    carried_law();
    let used = used_behind(server.tables.journal, body.len());
    // First, so that an answer is given only where its records stand. Where the disk fails the tables follow all the
    // same: a path that was taken must not stay without its file.
    let written = write(server, body);
    let answer = carry_dated(&mut server.tables, asked, prepared, now);
    match written {
        Ok(()) => {
            server.tables.journal = used;
            Ok(answer)
        }
        Err(error) => Err(error),
    }
}
