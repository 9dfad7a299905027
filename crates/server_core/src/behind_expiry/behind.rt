//! The event's body behind that of an expiry.
ghost use Rattle.std.specs.Prelude.{◌≡◌, ◌++◌, ℕ, IfOk, IfSome, List, MatchResult, length, true};
ghost use Rattle.spec_exchange.specs.State as model;
ghost use Rattle.spec_exchange.specs.Step as steps;
ghost use Rattle.spec_exchange.specs.Step.{carried_out};
ghost use Rattle.journal.specs.disk_journal.Journal.{OnlyRoom};
ghost use Rattle.server_checks.specs.event_heard.Heard.{AskedAgrees, event_of};
ghost use Rattle.server_core.specs.behind_expiry.Behind.{BothReady, IsPlannedBehind};
ghost use Rattle.journal_bytes.specs.record_bodies.Body.{IsBodyOf, fits_by};
ghost use Rattle.server_checks.specs.Shown.{TablesShown};
ghost use Rattle.server_core.specs.journaled_tables.Counted.{front_of};
ghost use Rattle.server_core.specs.journaled_tables.Rooms.{HasRoomToWrite};
ghost use Rattle.law_server.specs.tables.Fits.{Fits};
ghost use Rattle.server_plan.specs.Plans.{OwingOf};
ghost use Rattle.server_effects.specs.prepared_event.Prepared.{RoomToCarry};
ghost use Rattle.server_plan.specs.reserving.Readies.{TablesKeep};
ghost use Rattle.server_plan.specs.rulings.Rulings.{ruling_of};
ghost use Rattle.server_plan.specs.logon_steps.Steps.{PreparedStep};
ghost use Rattle.server_core.specs.body_writing.Bodies.{IsLack};
ghost use Rattle.server_checks.specs.session_table.Logons.{LogonsShown};
ghost use Rattle.spec_world.specs.Ends.{Logons};

use crate::event_memory::make_room;
use crate::joined_bodies::joined_law;
use crate::journaled_tables::ServerState;
use base_outside::Disk;
use journal_bytes::{body_law, spelled};
use server_checks::{Asked, EventError, Tables};
use server_effects::{Prepared, expire_records};
use server_plan::{Plan, Ruling, at_connection, body_of, fits, plan_law, rule, ruling_law};
use std::alloc::{AllocError, Global};
use wire_bytes::Bytes;

/// An event with its memory, and its body behind that of the expiry.
#[derive(Drop)]
pub struct Both {
    pub prepared: Prepared,
    pub body: Bytes,
}

/// The body of the records of an open that expires in front of an event.
///
/// # Errors
///
/// Memory ran out.
pub fn front_body(t: &Tables, asked: &Asked<'_>, id: u64) -> Result<Bytes, AllocError>
    ensures { (s : model.Server) → Fits s → TablesShown t.now s → s.standing id ≡ true
        → IfOk result (λ b. IsBodyOf b (front_of s (event_of asked.now) id)) }
{
    let connection = asked.connection();
    match expire_records(t.alloc, &t.opens, &t.tree, at_connection(connection), id) {
        Ok(records) => spelled(t.alloc, &records),
        Err(error) => Err(error),
    }
}

/// The event made ready at `now` (100 ns since 1601) with its body behind the expiry's, where both fit; none where they don't.
/// The tables are without the open.
///
/// # Errors
///
/// `Memory`, where it ran out; `Stopped`, where the journal had stopped.
pub fn ready_behind<D: Disk>(
    server: &mut ServerState<D>,
    asked: &Asked<'_>,
    now: u64,
    front: &[u8],
) -> Result<Option<Both>, EventError>
    ensures room { IfOk result (λ r. IfSome r (λ x. RoomToCarry server.new.tables asked.now x.prepared
        × HasRoomToWrite server.new x.body)) }
    ensures front { HasRoomToWrite server.old front.now → HasRoomToWrite server.new front.now }
    ensures shown { (s : model.Server) (records : List model.Record) → Fits s → TablesShown server.old.tables s
        → AskedAgrees asked.now → IsBodyOf front.now records
        → MatchResult result (λ r. BothReady server.new s now (event_of asked.now) records r)
        (λ x. TablesShown server.new.tables s × IsLack server.old.journal x) }
    ensures step { (L : Logons) → LogonsShown server.old.tables.sessions L.keys L.pending
        → IfOk result (λ r. IfSome r (λ x. PreparedStep L asked.now now x.prepared)) }
    ensures kept { TablesKeep server.old.tables server.new.tables }
    ensures journal { OnlyRoom server.old.journal server.new.journal × (server.new.stopped ≡ server.old.stopped) }
{
    match plan_behind(&server.tables, asked, now, front) {
        Ok(plan) => room_behind(server, asked, plan.ruling, plan.body, now),
        Err(_) => Err(EventError::Memory),
    }
}

// The same of its ruling, with the body of both.
fn room_behind<D: Disk>(
    server: &mut ServerState<D>,
    asked: &Asked<'_>,
    ruling: Ruling,
    body: Bytes,
    now: u64,
) -> Result<Option<Both>, EventError>
    ensures room { IfOk result (λ r. IfSome r (λ x. RoomToCarry server.new.tables asked.now x.prepared
        × HasRoomToWrite server.new x.body)) }
    ensures front { (front : List ℕ) → HasRoomToWrite server.old front → HasRoomToWrite server.new front }
    ensures shown { (s : model.Server) (records : List model.Record) → Fits s → TablesShown server.old.tables s
        → AskedAgrees asked.now → IsPlannedBehind ruling body s now (event_of asked.now) records
        → MatchResult result (λ r. BothReady server.new s now (event_of asked.now) records r)
        (λ x. TablesShown server.new.tables s × IsLack server.old.journal x) }
    ensures step { (L : Logons) → LogonsShown server.old.tables.sessions L.keys L.pending
        → IfOk result (λ r. IfSome r (λ x. PreparedStep L asked.now now x.prepared)) }
    ensures kept { TablesKeep server.old.tables server.new.tables }
    ensures journal { OnlyRoom server.old.journal server.new.journal × (server.new.stopped ≡ server.old.stopped) }
{
    body_law();
    if fits(&server.tables, body.len()) {
        return both_ready(server, asked, ruling, body, now);
    }
    Ok(None)
}

// Where both fit.
fn both_ready<D: Disk>(
    server: &mut ServerState<D>,
    asked: &Asked<'_>,
    ruling: Ruling,
    body: Bytes,
    now: u64,
) -> Result<Option<Both>, EventError>
    requires { fits_by server.old.tables.journal (length body) ≡ true }
    ensures room { IfOk result (λ r. IfSome r (λ x. RoomToCarry server.new.tables asked.now x.prepared
        × HasRoomToWrite server.new x.body)) }
    ensures front { (front : List ℕ) → HasRoomToWrite server.old front → HasRoomToWrite server.new front }
    ensures shown { (s : model.Server) (records : List model.Record) → Fits s → TablesShown server.old.tables s
        → AskedAgrees asked.now → IsPlannedBehind ruling body s now (event_of asked.now) records
        → MatchResult result (λ r. BothReady server.new s now (event_of asked.now) records r)
        (λ x. TablesShown server.new.tables s × IsLack server.old.journal x) }
    ensures step { (L : Logons) → LogonsShown server.old.tables.sessions L.keys L.pending
        → IfOk result (λ r. IfSome r (λ x. PreparedStep L asked.now now x.prepared)) }
    ensures kept { TablesKeep server.old.tables server.new.tables }
    ensures journal { OnlyRoom server.old.journal server.new.journal × (server.new.stopped ≡ server.old.stopped) }
{
    body_law();
    plan_law();
    ruling_law();
    match make_room(server, asked, ruling, body.as_slice(), now) {
        Ok(prepared) => Ok(Some(Both { prepared, body })),
        Err(error) => Err(error),
    }
}

// The ruling on the event, with its body behind the expiry's.
fn plan_behind(t: &Tables, asked: &Asked<'_>, now: u64, front: &[u8]) -> Result<Plan, AllocError>
    ensures { (s : model.Server) (records : List model.Record) → Fits s → TablesShown t.now s → IsBodyOf front.now records
        → IfOk result (λ p. IsPlannedBehind p.ruling p.body s now (event_of asked.now) records) }
{
    match rule(t, asked) {
        Ok(ruling) => with_body(t, asked, ruling, now, front),
        Err(error) => Err(error),
    }
}

// The same of its ruling.
fn with_body(
    t: &Tables,
    asked: &Asked<'_>,
    ruling: Ruling,
    now: u64,
    front: &[u8],
) -> Result<Plan, AllocError>
    ensures { (s : model.Server) (records : List model.Record) → Fits s → TablesShown t.now s
        → ruling_of (event_of asked.now) ruling ≡ steps.ruling s (event_of asked.now) → IsBodyOf front.now records
        → IfOk result (λ p. IsPlannedBehind p.ruling p.body s now (event_of asked.now) records) }
{
    plan_law();
    match body_behind(t, asked, &ruling, now, front) {
        Ok(body) => Ok(Plan { ruling, body }),
        Err(error) => Err(error),
    }
}

// The event's body behind the expiry's.
fn body_behind(
    t: &Tables,
    asked: &Asked<'_>,
    ruling: &Ruling,
    now: u64,
    front: &[u8],
) -> Result<Bytes, AllocError>
    ensures { (s : model.Server) (records : List model.Record) → Fits s → TablesShown t.now s
        → OwingOf s (ruling_of (event_of asked.now) ruling.now) → IsBodyOf front.now records
        → IfOk result (λ b. IsBodyOf b (records ++ (carried_out s now (ruling_of (event_of asked.now) ruling.now)).records)) }
{
    joined_law();
    match body_of(t, asked, ruling, now) {
        Ok(own) => joined(t.alloc, front, own.as_slice()),
        Err(error) => Err(error),
    }
}

fn joined(alloc: Global, front: &[u8], own: &[u8]) -> Result<Bytes, AllocError>
    ensures { IfOk result (λ b. b ≡ front.now ++ own.now) }
{
    let mut body = Bytes::from_slice(alloc, front)?;
    body.extend(own)?;
    Ok(body)
}
