//! The memory that an event wants.
ghost use Rattle.std.specs.Prelude.{◌≡◌, ℕ, false, true};
ghost use Rattle.std.specs.Prelude.{IfOk, IsOk, List, MatchResult, OnOk, length};
ghost use Rattle.spec_exchange.specs.State as model;
ghost use Rattle.journal.specs.disk_journal.Journal.{OnlyRoom};
ghost use Rattle.server_checks.specs.event_heard.Heard.{AskedAgrees, event_of};
ghost use Rattle.journal_bytes.specs.record_bodies.Body.{fits_by};
ghost use Rattle.server_checks.specs.Shown.{TablesShown};
ghost use Rattle.server_core.specs.journaled_tables.Rooms.{HasRoomToWrite};
ghost use Rattle.law_server.specs.tables.Fits.{Fits};
ghost use Rattle.server_plan.specs.Plans.{OwingOf};
ghost use Rattle.server_effects.specs.prepared_event.Prepared.{IsPrepared, RoomToCarry, prepared_ruling};
ghost use Rattle.server_plan.specs.preparing.Preparing.{wants_memory_by};
ghost use Rattle.server_plan.specs.reserving.Readies.{TablesKeep};
ghost use Rattle.server_plan.specs.rulings.Rulings.{AbleToRule, ruling_of};
ghost use Rattle.server_plan.specs.logon_steps.Steps.{PreparedStep};
ghost use Rattle.server_core.specs.body_writing.Bodies.{IsLack};
ghost use Rattle.server_checks.specs.session_table.Logons.{LogonsShown};
ghost use Rattle.spec_world.specs.Ends.{Logons};

use crate::body_writing::reserve_body;
use crate::journaled_tables::ServerState;
use base_outside::Disk;
use server_checks::{Asked, EventError};
use server_effects::Prepared;
use server_plan::{Ruling, prepare};

/// Takes the memory that a ruling and its body want. Where there is none the state is as before.
///
/// # Errors
///
/// `Memory` where it ran out, and `Stopped` where the journal has stopped, with its count of faults.
pub fn make_room<D: Disk>(
    server: &mut ServerState<D>,
    asked: &Asked<'_>,
    ruling: Ruling,
    body: &[u8],
    now: u64,
) -> Result<Prepared, EventError>
    requires { fits_by server.old.tables.journal (length body.now) ≡ true }
    ensures room { IfOk result (λ p. RoomToCarry server.new.tables asked.now p) }
    ensures written { OnOk result (HasRoomToWrite server.new body.now) }
    ensures front { (front : List ℕ) → HasRoomToWrite server.old front → HasRoomToWrite server.new front }
    ensures shown { (s : model.Server) → Fits s → TablesShown server.old.tables s → AskedAgrees asked.now
        → AbleToRule s (ruling_of (event_of asked.now) ruling) → OwingOf s (ruling_of (event_of asked.now) ruling)
        → MatchResult result (λ p. IsPrepared server.new.tables s now (event_of asked.now) p
        × (prepared_ruling (event_of asked.now) p ≡ ruling_of (event_of asked.now) ruling))
        (λ x. TablesShown server.new.tables s × IsLack server.old.journal x) }
    ensures step { (L : Logons) → LogonsShown server.old.tables.sessions L.keys L.pending
        → IfOk result (λ p. PreparedStep L asked.now now p) }
    ensures kept { TablesKeep server.old.tables server.new.tables }
    ensures journal { OnlyRoom server.old.journal server.new.journal × (server.new.stopped ≡ server.old.stopped) }
    ensures sure { length body.now ≡ 0 → wants_memory_by (ruling_of (event_of asked.now) ruling) ≡ false → IsOk result }
{
    // Before `prepare`, which may take a path: room for the body needn't be given back.
    match reserve_body(&mut server.journal, body.len()) {
        Ok(()) => match prepare(&mut server.tables, asked, ruling, now) {
            Ok(prepared) => Ok(prepared),
            Err(_) => Err(EventError::Memory),
        },
        Err(error) => Err(error),
    }
}
