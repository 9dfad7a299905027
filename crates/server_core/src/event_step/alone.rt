//! An event in front of which no open expires.
ghost use Rattle.std.specs.Prelude.{◌≡◌, [], ℕ, List, false, length, true};
ghost use Rattle.spec_exchange.specs.State as model;
ghost use Rattle.spec_exchange.specs.Step.{event_answer, ruling, step, with_deadlines, written_down};
ghost use Rattle.spec_wire.specs.journal.Moments.{LeavesOnly};
ghost use Rattle.server_checks.specs.event_heard.Heard.{event_of, heard_event};
ghost use Rattle.server_checks.specs.declared.event_heard.event.ServerEvent.{ServerEvent};
ghost use Rattle.journal_bytes.specs.record_bodies.Body.{fits_by};
ghost use Rattle.server_checks.specs.Shown.{TablesShown};
ghost use Rattle.law_snapshots.specs.snapshots.Pieces.{SnapshotPiece};
ghost use Rattle.server_core.specs.event_step.Behind.{ExpiryAsks};
ghost use Rattle.server_core.specs.event_step.Early.{HasMemory, is_refused_early};
ghost use Rattle.server_core.specs.journaled_tables.Holds.{EventAnswers, EventLeavesBodies, JournaledGoesOn};
ghost use Rattle.law_server.specs.tables.Fits.{Fits};
ghost use Rattle.server_plan.specs.Plans.{PlanFor};
ghost use Rattle.server_plan.specs.preparing.Preparing.{wants_memory_by};
ghost use Rattle.server_plan.specs.rulings.Rulings.{ruling_of};
ghost use Rattle.spec_crypto.specs.tokens.Tokens.{Users};
ghost use Rattle.spec_world.specs.Ends.{Logons};

use crate::commit_event::commit;
use crate::event_memory::make_room;
use crate::journaled_tables::ServerState;
use crate::next_body::behind_law;
use base_outside::Disk;
use journal_bytes::body_law;
use law_records::{carried_law, expiring_law, keeps_law, stands_law};
use server_checks::{Asked, EventError};
use server_effects::Answer;
use server_plan::{Plan, plan_event, plan_law};

// An event in front of which no open expires.
pub(crate) fn event_alone<D: Disk>(
    server: &mut ServerState<D>,
    asked: &Asked<'_>,
    now: u64,
) -> Result<Answer, EventError>
    ensures step { (base : List SnapshotPiece) (users : Users) (s : model.Server) (L : Logons) (records : List model.Record)
        (e : ServerEvent)
        → ExpiryAsks D.told D.seen D.may_leave base server.old users s L records now e asked.now
        → step s now (heard_event users L s e) ≡ written_down (event_answer (with_deadlines s now) now (event_of asked.now))
        → EventAnswers D.told D.seen D.may_leave base D.faults server.old server.new users s L records now e result }
    ensures any_moment { D.told
        → (base : List SnapshotPiece) (users : Users) (s : model.Server) (L : Logons) (records : List model.Record) (bodies : List
        (List ℕ)) (e : ServerEvent)
        → ExpiryAsks D.told D.seen D.may_leave base server.old users s L records now e asked.now
        → step s now (heard_event users L s e) ≡ written_down (event_answer (with_deadlines s now) now (event_of asked.now))
        → JournaledGoesOn D.seen D.may_leave base server.old s records bodies
        → LeavesOnly D.moment D.left_since server.old.journal.disk server.new.journal.disk
        (EventLeavesBodies s now (heard_event users L s e) bodies) }
    ensures config { server.new.tables.config ≡ server.old.tables.config }
    ensures early { (s : model.Server) → Fits s → TablesShown server.old.tables s → is_refused_early s (event_of asked.now) ≡ true
        → HasMemory result }
{
    match plan_event(&server.tables, asked, now) {
        Ok(plan) => carry_plan(server, asked, plan, now),
        Err(_) => Err(EventError::Memory),
    }
}

// What an event comes to, with its body: all its memory first, then the body, then the tables.
fn carry_plan<D: Disk>(
    server: &mut ServerState<D>,
    asked: &Asked<'_>,
    plan: Plan,
    now: u64,
) -> Result<Answer, EventError>
    requires { fits_by server.old.tables.journal (length plan.body) ≡ true }
    ensures step { (base : List SnapshotPiece) (users : Users) (s : model.Server) (L : Logons) (records : List model.Record)
        (e : ServerEvent)
        → ExpiryAsks D.told D.seen D.may_leave base server.old users s L records now e asked.now → PlanFor plan s now (event_of asked.now)
        → step s now (heard_event users L s e) ≡ written_down (event_answer (with_deadlines s now) now (event_of asked.now))
        → EventAnswers D.told D.seen D.may_leave base D.faults server.old server.new users s L records now e result }
    ensures any_moment { D.told
        → (base : List SnapshotPiece) (users : Users) (s : model.Server) (L : Logons) (records : List model.Record) (bodies : List
        (List ℕ)) (e : ServerEvent)
        → ExpiryAsks D.told D.seen D.may_leave base server.old users s L records now e asked.now → PlanFor plan s now (event_of asked.now)
        → step s now (heard_event users L s e) ≡ written_down (event_answer (with_deadlines s now) now (event_of asked.now))
        → JournaledGoesOn D.seen D.may_leave base server.old s records bodies
        → LeavesOnly D.moment D.left_since server.old.journal.disk server.new.journal.disk
        (EventLeavesBodies s now (heard_event users L s e) bodies) }
    ensures config { server.new.tables.config ≡ server.old.tables.config }
    ensures early { (s : model.Server) → ruling_of (event_of asked.now) plan.ruling ≡ ruling s (event_of asked.now) → plan.body ≡ []
        → wants_memory_by (ruling s (event_of asked.now)) ≡ false → HasMemory result }
{
    behind_law();
    body_law();
    carried_law();
    expiring_law();
    keeps_law();
    plan_law();
    stands_law();
    let Plan { ruling, body } = plan;
    let body = body.as_slice();
    match make_room(server, asked, ruling, body, now) {
        Ok(prepared) => commit(server, asked, prepared, body, now),
        Err(error) => Err(error),
    }
}
