//! An event behind the expiry of an open (MS-SMB2 3.3.6.2), in one body with it, where the records of both fit.
ghost use Rattle.std.specs.Prelude.{◌≡◌, ℕ, IfOk, List};
ghost use Rattle.spec_exchange.specs.State as model;
ghost use Rattle.spec_wire.specs.journal.Moments.{LeavesOnly};
ghost use Rattle.store_opens.specs.open_table.Shown.{HasOpensRoom};
ghost use Rattle.server_checks.specs.event_heard.Heard.{heard_event};
ghost use Rattle.server_checks.specs.declared.event_heard.event.ServerEvent.{ServerEvent};
ghost use Rattle.law_snapshots.specs.snapshots.Pieces.{SnapshotPiece};
ghost use Rattle.server_core.specs.event_step.Behind.{ExpiryAsks, BehindEnds, HasFront, IsExpiryFront, MayExpire, StaysWhereNone, Without};
ghost use Rattle.server_core.specs.journaled_tables.Holds.{EventLeavesBodies, JournaledGoesOn};
ghost use Rattle.server_core.specs.journaled_tables.Rooms.{HasRoomToWrite};
ghost use Rattle.spec_crypto.specs.tokens.Tokens.{Users};
ghost use Rattle.spec_world.specs.Ends.{Logons};

use crate::behind_expiry::{front_body, ready_behind};
use crate::body_writing::reserve_body;
use crate::event_step::back::{carry_behind, lack_behind, none_behind};
use crate::journaled_tables::ServerState;
use base_outside::Disk;
use journal_bytes::body_law;
use law_records::{expiring_law, keeps_law};
use server_checks::{Asked, EventError};
use server_effects::{Answer, Expired, take_expired};
use server_plan::fits;

// What became of an event behind the expiry of an open.
#[derive(Drop)]
pub(crate) enum Behind {
    Answered { answer: Answer },
    // None expires: the state is as before.
    NoneExpires,
}

// Where the records of both don't fit, none expires.
pub(crate) fn event_behind_expiry<D: Disk>(
    server: &mut ServerState<D>,
    asked: &Asked<'_>,
    now: u64,
    id: u64,
) -> Result<Behind, EventError>
    ensures step { (base : List SnapshotPiece) (users : Users) (s : model.Server) (L : Logons) (records : List model.Record)
        (e : ServerEvent)
        → ExpiryAsks D.told D.seen D.may_leave base server.old users s L records now e asked.now → MayExpire s now id
        → BehindEnds D.told D.seen D.may_leave base D.faults server.old server.new users s L records now e asked.now result }
    ensures any_moment { D.told
        → (base : List SnapshotPiece) (users : Users) (s : model.Server) (L : Logons) (records : List model.Record) (bodies : List
        (List ℕ)) (e : ServerEvent)
        → ExpiryAsks D.told D.seen D.may_leave base server.old users s L records now e asked.now → MayExpire s now id
        → JournaledGoesOn D.seen D.may_leave base server.old s records bodies
        → LeavesOnly D.moment D.left_since server.old.journal.disk server.new.journal.disk
        (EventLeavesBodies s now (heard_event users L s e) bodies) }
    ensures none { IfOk result (λ b. StaysWhereNone server.old server.new b) }
    ensures config { server.new.tables.config ≡ server.old.tables.config }
{
    keeps_law();
    match front_body(&server.tables, asked, id) {
        Ok(front) => behind_front(server, asked, now, id, front.as_slice()),
        Err(_) => Err(EventError::Memory),
    }
}

// Where the body of the expiry doesn't fit by itself, none expires either.
fn behind_front<D: Disk>(
    server: &mut ServerState<D>,
    asked: &Asked<'_>,
    now: u64,
    id: u64,
    front: &[u8],
) -> Result<Behind, EventError>
    ensures step { (base : List SnapshotPiece) (users : Users) (s : model.Server) (L : Logons) (records : List model.Record)
        (e : ServerEvent)
        → ExpiryAsks D.told D.seen D.may_leave base server.old users s L records now e asked.now → MayExpire s now id
        → IsExpiryFront s asked.now id front.now
        → BehindEnds D.told D.seen D.may_leave base D.faults server.old server.new users s L records now e asked.now result }
    ensures any_moment { D.told
        → (base : List SnapshotPiece) (users : Users) (s : model.Server) (L : Logons) (records : List model.Record) (bodies : List
        (List ℕ)) (e : ServerEvent)
        → ExpiryAsks D.told D.seen D.may_leave base server.old users s L records now e asked.now → MayExpire s now id
        → IsExpiryFront s asked.now id front.now → JournaledGoesOn D.seen D.may_leave base server.old s records bodies
        → LeavesOnly D.moment D.left_since server.old.journal.disk server.new.journal.disk
        (EventLeavesBodies s now (heard_event users L s e) bodies) }
    ensures none { IfOk result (λ b. StaysWhereNone server.old server.new b) }
    ensures config { server.new.tables.config ≡ server.old.tables.config }
{
    body_law();
    expiring_law();
    if !fits(&server.tables, front.len()) {
        return Ok(Behind::NoneExpires);
    }
    // While the open still stands: where later neither the event nor the way back finds memory, the expiry can be
    // written alone.
    match reserve_body(&mut server.journal, front.len()) {
        Ok(()) => take_out(server, asked, now, id, front),
        Err(error) => Err(error),
    }
}

// The open is taken out, with its file where that goes.
fn take_out<D: Disk>(
    server: &mut ServerState<D>,
    asked: &Asked<'_>,
    now: u64,
    id: u64,
    front: &[u8],
) -> Result<Behind, EventError>
    requires { HasRoomToWrite server.old front.now }
    ensures step { (base : List SnapshotPiece) (users : Users) (s : model.Server) (L : Logons) (records : List model.Record)
        (e : ServerEvent)
        → ExpiryAsks D.told D.seen D.may_leave base server.old users s L records now e asked.now → MayExpire s now id
        → HasFront s asked.now id front.now
        → BehindEnds D.told D.seen D.may_leave base D.faults server.old server.new users s L records now e asked.now result }
    ensures any_moment { D.told
        → (base : List SnapshotPiece) (users : Users) (s : model.Server) (L : Logons) (records : List model.Record) (bodies : List
        (List ℕ)) (e : ServerEvent)
        → ExpiryAsks D.told D.seen D.may_leave base server.old users s L records now e asked.now → MayExpire s now id
        → HasFront s asked.now id front.now → JournaledGoesOn D.seen D.may_leave base server.old s records bodies
        → LeavesOnly D.moment D.left_since server.old.journal.disk server.new.journal.disk
        (EventLeavesBodies s now (heard_event users L s e) bodies) }
    ensures none { IfOk result (λ b. StaysWhereNone server.old server.new b) }
    ensures config { server.new.tables.config ≡ server.old.tables.config }
{
    keeps_law();
    match take_expired(&mut server.tables.opens, &mut server.tables.tree, id) {
        Ok(Some(expired)) => event_without(server, asked, now, expired, front),
        Ok(None) => Ok(Behind::NoneExpires),
        Err(_) => Err(EventError::Memory),
    }
}

// The event on the tables without the open that expires.
fn event_without<D: Disk>(
    server: &mut ServerState<D>,
    asked: &Asked<'_>,
    now: u64,
    expired: Expired,
    front: &[u8],
) -> Result<Behind, EventError>
    requires { HasOpensRoom server.old.tables.opens × HasRoomToWrite server.old front.now }
    ensures step { (base : List SnapshotPiece) (users : Users) (s : model.Server) (L : Logons) (records : List model.Record)
        (e : ServerEvent) (o : ℕ)
        (y : model.Server)
        → Without D.told D.seen D.may_leave base server.old users s L records now e asked.now o expired y → MayExpire s now o
        → HasFront s asked.now o front.now
        → BehindEnds D.told D.seen D.may_leave base D.faults server.old server.new users s L records now e asked.now result }
    ensures any_moment { D.told
        → (base : List SnapshotPiece) (users : Users) (s : model.Server) (L : Logons) (records : List model.Record) (bodies : List
        (List ℕ)) (e : ServerEvent)
        (o : ℕ) (y : model.Server)
        → Without D.told D.seen D.may_leave base server.old users s L records now e asked.now o expired y → MayExpire s now o
        → HasFront s asked.now o front.now → JournaledGoesOn D.seen D.may_leave base server.old s records bodies
        → LeavesOnly D.moment D.left_since server.old.journal.disk server.new.journal.disk
        (EventLeavesBodies s now (heard_event users L s e) bodies) }
    ensures none { IfOk result (λ b. StaysWhereNone server.old server.new b) }
    ensures config { server.new.tables.config ≡ server.old.tables.config }
{
    keeps_law();
    match ready_behind(server, asked, now, front) {
        Ok(Some(both)) => carry_behind(server, asked, now, expired, both),
        Ok(None) => none_behind(server, asked, now, expired, front),
        Err(lack) => lack_behind(server, asked, now, expired, front, lack),
    }
}
