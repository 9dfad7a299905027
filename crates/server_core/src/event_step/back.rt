//! An event behind an open that was taken out in front of it: it is carried out, or the open comes back.
ghost use Rattle.std.specs.Prelude.{◌≡◌, ℕ, IfOk, List, false};
ghost use Rattle.spec_exchange.specs.Records.{fits};
ghost use Rattle.spec_exchange.specs.State as model;
ghost use Rattle.spec_wire.specs.journal.Moments.{LeavesOnly};
ghost use Rattle.store_opens.specs.open_table.Shown.{HasOpensRoom};
ghost use Rattle.server_checks.specs.event_heard.Heard.{event_of, heard_event};
ghost use Rattle.server_checks.specs.declared.event_heard.event.ServerEvent.{ServerEvent};
ghost use Rattle.law_snapshots.specs.snapshots.Pieces.{SnapshotPiece};
ghost use Rattle.server_core.specs.event_step.Apart.{ServerApart};
ghost use Rattle.server_core.specs.event_step.Behind.{BehindEnds, HasFront, MayExpire, StaysWhereNone, Without, both_from};
ghost use Rattle.server_core.specs.journaled_tables.Holds.{EventLeavesBodies, JournaledGoesOn};
ghost use Rattle.server_core.specs.journaled_tables.Rooms.{HasRoomToWrite};
ghost use Rattle.server_effects.specs.prepared_event.Prepared.{RoomToCarry};
ghost use Rattle.server_core.specs.body_writing.Bodies.{IsLack};
ghost use Rattle.spec_crypto.specs.tokens.Tokens.{Users};
ghost use Rattle.spec_world.specs.Ends.{Logons};

use crate::behind_expiry::Both;
use crate::event_step::both::carry_both;
use crate::event_step::expiring::Behind;
use crate::expiry_alone::take_back;
use crate::journaled_tables::ServerState;
use crate::next_body::behind_law;
use base_outside::Disk;
use journal_bytes::body_law;
use law_records::{dated_law, expiring_law, keeps_law, stands_law};
use server_checks::{Asked, EventError};
use server_effects::Expired;

// The event, with its body behind the expiry's, as an end of both.
pub(crate) fn carry_behind<D: Disk>(
    server: &mut ServerState<D>,
    asked: &Asked<'_>,
    now: u64,
    expired: Expired,
    both: Both,
) -> Result<Behind, EventError>
    requires { RoomToCarry server.old.tables asked.now both.prepared × HasRoomToWrite server.old both.body }
    ensures step { (base : List SnapshotPiece) (users : Users) (s y : model.Server) (L : Logons) (records : List model.Record)
        (e : ServerEvent) (o : ℕ)
        → ServerApart D.told D.seen D.may_leave base server.old users s y L records now e asked.now o expired both → MayExpire s now o
        → BehindEnds D.told D.seen D.may_leave base D.faults server.old server.new users s L records now e asked.now result }
    ensures any_moment { D.told
        → (base : List SnapshotPiece) (users : Users) (s y : model.Server) (L : Logons) (records : List model.Record) (bodies : List
        (List ℕ)) (e : ServerEvent)
        (o : ℕ) → ServerApart D.told D.seen D.may_leave base server.old users s y L records now e asked.now o expired both
        → MayExpire s now o
        → JournaledGoesOn D.seen D.may_leave base server.old s records bodies
        → LeavesOnly D.moment D.left_since server.old.journal.disk server.new.journal.disk
        (EventLeavesBodies s now (heard_event users L s e) bodies) }
    ensures none { IfOk result (λ b. StaysWhereNone server.old server.new b) }
    ensures config { server.new.tables.config ≡ server.old.tables.config }
{
    match carry_both(server, asked, now, expired, both) {
        Ok(answer) => Ok(Behind::Answered { answer }),
        Err(error) => Err(error),
    }
}

// Both don't fit: the open comes back, and none expires.
pub(crate) fn none_behind<D: Disk>(
    server: &mut ServerState<D>,
    asked: &Asked<'_>,
    now: u64,
    expired: Expired,
    front: &[u8],
) -> Result<Behind, EventError>
    requires { HasOpensRoom server.old.tables.opens × HasRoomToWrite server.old front.now }
    ensures step { (base : List SnapshotPiece) (users : Users) (s : model.Server) (L : Logons) (records : List model.Record)
        (e : ServerEvent) (o : ℕ)
        (y : model.Server)
        → Without D.told D.seen D.may_leave base server.old users s L records now e asked.now o expired y → MayExpire s now o
        → HasFront s asked.now o front.now
        → fits y (both_from s y now (event_of asked.now) o) ≡ false
        → BehindEnds D.told D.seen D.may_leave base D.faults server.old server.new users s L records now e asked.now result }
    ensures any_moment { D.told
        → (base : List SnapshotPiece) (users : Users) (s : model.Server) (L : Logons) (records : List model.Record) (bodies : List
        (List ℕ)) (e : ServerEvent)
        (o : ℕ) (y : model.Server)
        → Without D.told D.seen D.may_leave base server.old users s L records now e asked.now o expired y → MayExpire s now o
        → HasFront s asked.now o front.now → JournaledGoesOn D.seen D.may_leave base server.old s records bodies
        → LeavesOnly D.moment D.left_since server.old.journal.disk server.new.journal.disk
        (EventLeavesBodies s now (heard_event users L s e) bodies) }
    ensures none { IfOk result (λ b. StaysWhereNone server.old server.new b) }
    ensures config { server.new.tables.config ≡ server.old.tables.config }
{
    behind_law();
    body_law();
    dated_law();
    expiring_law();
    keeps_law();
    stands_law();
    match take_back(server, expired, front, now) {
        Ok(()) => Ok(Behind::NoneExpires),
        Err(error) => Err(error),
    }
}

// There is no memory for the event: the open comes back, or where there is none for that the expiry stands alone.
pub(crate) fn lack_behind<D: Disk>(
    server: &mut ServerState<D>,
    asked: &Asked<'_>,
    now: u64,
    expired: Expired,
    front: &[u8],
    lack: EventError,
) -> Result<Behind, EventError>
    requires { HasOpensRoom server.old.tables.opens × HasRoomToWrite server.old front.now }
    ensures step { (base : List SnapshotPiece) (users : Users) (s : model.Server) (L : Logons) (records : List model.Record)
        (e : ServerEvent) (o : ℕ)
        (y : model.Server)
        → Without D.told D.seen D.may_leave base server.old users s L records now e asked.now o expired y → MayExpire s now o
        → HasFront s asked.now o front.now
        → IsLack server.old.journal lack
        → BehindEnds D.told D.seen D.may_leave base D.faults server.old server.new users s L records now e asked.now result }
    ensures any_moment { D.told
        → (base : List SnapshotPiece) (users : Users) (s : model.Server) (L : Logons) (records : List model.Record) (bodies : List
        (List ℕ)) (e : ServerEvent)
        (o : ℕ) (y : model.Server)
        → Without D.told D.seen D.may_leave base server.old users s L records now e asked.now o expired y → MayExpire s now o
        → HasFront s asked.now o front.now → JournaledGoesOn D.seen D.may_leave base server.old s records bodies
        → LeavesOnly D.moment D.left_since server.old.journal.disk server.new.journal.disk
        (EventLeavesBodies s now (heard_event users L s e) bodies) }
    ensures none { IfOk result (λ b. StaysWhereNone server.old server.new b) }
    ensures config { server.new.tables.config ≡ server.old.tables.config }
{
    behind_law();
    body_law();
    dated_law();
    keeps_law();
    stands_law();
    match take_back(server, expired, front, now) {
        Ok(()) => Err(lack),
        Err(error) => Err(error),
    }
}
