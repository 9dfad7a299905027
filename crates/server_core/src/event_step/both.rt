//! An event that is ready behind an expiry, with one body for both, carried out.
ghost use Rattle.std.specs.Prelude.{◌≡◌, ℕ, List};
ghost use Rattle.spec_exchange.specs.State as model;
ghost use Rattle.spec_wire.specs.journal.Moments.{LeavesOnly};
ghost use Rattle.server_checks.specs.event_heard.Heard.{heard_event};
ghost use Rattle.server_checks.specs.declared.event_heard.event.ServerEvent.{ServerEvent};
ghost use Rattle.law_snapshots.specs.snapshots.Pieces.{SnapshotPiece};
ghost use Rattle.server_core.specs.event_step.Apart.{ServerApart};
ghost use Rattle.server_core.specs.event_step.Behind.{MayExpire};
ghost use Rattle.server_core.specs.journaled_tables.Holds.{EventAnswers, EventLeavesBodies, JournaledGoesOn};
ghost use Rattle.server_core.specs.journaled_tables.Rooms.{HasRoomToWrite};
ghost use Rattle.server_effects.specs.prepared_event.Prepared.{RoomToCarry};
ghost use Rattle.spec_crypto.specs.tokens.Tokens.{Users};
ghost use Rattle.spec_world.specs.Ends.{Logons};

use crate::behind_expiry::Both;
use crate::commit_event::commit;
use crate::journaled_tables::ServerState;
use crate::next_body::behind_law;
use base_outside::Disk;
use journal_bytes::body_law;
use law_records::{carried_law, expiring_law, keeps_law, stands_law};
use server_checks::{Asked, EventError};
use server_effects::{Answer, Expired, dated_effects_law, give_up};
use server_plan::ruling_law;

// The open stays out, and the event follows, with one body for both.
pub(crate) fn carry_both<D: Disk>(
    server: &mut ServerState<D>,
    asked: &Asked<'_>,
    now: u64,
    expired: Expired,
    both: Both,
) -> Result<Answer, EventError>
    requires { RoomToCarry server.old.tables asked.now both.prepared × HasRoomToWrite server.old both.body }
    ensures step { (base : List SnapshotPiece) (users : Users) (s y : model.Server) (L : Logons) (records : List model.Record)
        (e : ServerEvent) (o : ℕ)
        → ServerApart D.told D.seen D.may_leave base server.old users s y L records now e asked.now o expired both → MayExpire s now o
        → EventAnswers D.told D.seen D.may_leave base D.faults server.old server.new users s L records now e result }
    ensures any_moment { D.told
        → (base : List SnapshotPiece) (users : Users) (s y : model.Server) (L : Logons) (records : List model.Record) (bodies : List
        (List ℕ)) (e : ServerEvent)
        (o : ℕ) → ServerApart D.told D.seen D.may_leave base server.old users s y L records now e asked.now o expired both
        → MayExpire s now o
        → JournaledGoesOn D.seen D.may_leave base server.old s records bodies
        → LeavesOnly D.moment D.left_since server.old.journal.disk server.new.journal.disk
        (EventLeavesBodies s now (heard_event users L s e) bodies) }
    ensures config { server.new.tables.config ≡ server.old.tables.config }
{
    behind_law();
    body_law();
    carried_law();
    dated_effects_law();
    expiring_law();
    keeps_law();
    ruling_law();
    stands_law();
    give_up(&mut server.tables.opens, expired);
    commit(server, asked, both.prepared, both.body.as_slice(), now)
}
