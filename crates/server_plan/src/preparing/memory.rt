//! What an event comes to, with the memory that its effect wants.
ghost use Rattle.std.specs.Prelude.{◌≡◌, ℕ, IfOk, IsOk, false};
ghost use Rattle.spec_exchange.specs.State.{Server, ServerEvent};
ghost use Rattle.spec_exchange.specs.Step.{TakesIn};
ghost use Rattle.server_checks.specs.event_heard.Heard.{AskedAgrees, event_of};
ghost use Rattle.server_checks.specs.declared.event_heard.asked.Asked as heard;
ghost use Rattle.server_checks.specs.Shown.{TablesShown};
ghost use Rattle.law_server.specs.tables.Fits.{Fits};
ghost use Rattle.server_plan.specs.Plans.{OwingOf};
ghost use Rattle.server_effects.specs.prepared_event.Prepared.{RoomToCarry};
ghost use Rattle.server_plan.specs.preparing.Preparing.{PreparesRuling, wants_memory_by};
ghost use Rattle.server_plan.specs.reserving.Readies.{TablesKeep};
ghost use Rattle.server_plan.specs.rulings.Rulings.{AbleToRule, ruling_of};
ghost use Rattle.server_plan.specs.declared.rulings.ruling.Ruling.TheVariants.{Says};
ghost use Rattle.server_plan.specs.logon_steps.Steps.{PreparedStep};
ghost use Rattle.server_checks.specs.session_table.Logons.{LogonsShown};
ghost use Rattle.spec_world.specs.Ends.{Logons};

use crate::reserving::ready;
use crate::rulings::Ruling;
use server_checks::{Asked, Tables, Verdict};
use server_effects::Prepared;
use std::alloc::AllocError;

/// Takes the memory that a ruling wants, as it is carried out at `now` (100 ns since 1601).
///
/// # Errors
///
/// Memory ran out, and the state is as before. It can't where the effect wants none, as of a refusal and of a connection that is
/// lost.
pub fn prepare(
    t: &mut Tables,
    asked: &Asked<'_>,
    ruling: Ruling,
    now: u64,
) -> Result<Prepared, AllocError>
    ensures shown { (s : Server) → Fits s → TablesShown t.old s → AskedAgrees asked.now
        → AbleToRule s (ruling_of (event_of asked.now) ruling) → OwingOf s (ruling_of (event_of asked.now) ruling)
        → PreparesRuling t.new s now (event_of asked.now) (ruling_of (event_of asked.now) ruling) result }
    ensures room { IfOk result (λ p. RoomToCarry t.new asked.now p) }
    ensures step { (L : Logons) → LogonsShown t.old.sessions L.keys L.pending → IfOk result (λ p. PreparedStep L asked.now now p) }
    ensures kept { TablesKeep t.old t.new }
    ensures sure { wants_memory_by (ruling_of (event_of asked.now) ruling) ≡ false → IsOk result }
{
    match ruling {
        Ruling::Says { verdict } => prepare_verdict(t, asked, verdict, now),
        Ruling::TakesIn { connection } => prepare_connection(t, connection),
        Ruling::TurnsAway => Ok(Prepared::TurnsAway),
        Ruling::TakesOut { connection, quiet } => Ok(Prepared::TakesOut { connection, quiet }),
        Ruling::TakesAllOut { quiet } => Ok(Prepared::TakesAllOut { quiet }),
    }
}

fn prepare_verdict(
    t: &mut Tables,
    asked: &Asked<'_>,
    verdict: Verdict,
    now: u64,
) -> Result<Prepared, AllocError>
    ensures shown { (s : Server) → Fits s → TablesShown t.old s → AskedAgrees asked.now
        → AbleToRule s (ruling_of (event_of asked.now) (Says verdict)) → OwingOf s (ruling_of (event_of asked.now) (Says verdict))
        → PreparesRuling t.new s now (event_of asked.now) (ruling_of (event_of asked.now) (Says verdict)) result }
    ensures room { IfOk result (λ p. RoomToCarry t.new asked.now p) }
    ensures step { (L : Logons) → LogonsShown t.old.sessions L.keys L.pending → IfOk result (λ p. PreparedStep L asked.now now p) }
    ensures kept { TablesKeep t.old t.new }
    ensures sure { wants_memory_by (ruling_of (event_of asked.now) (Says verdict)) ≡ false → IsOk result }
{
    match asked {
        Asked::Says { message, logon } => {
            match ready(t, message, logon.as_ref(), verdict, now) {
                Ok(done) => Ok(Prepared::Says { ready: done }),
                Err(error) => Err(error),
            }
        }
        _ => Ok(Prepared::TurnsAway),
    }
}

fn prepare_connection(t: &mut Tables, connection: u32) -> Result<Prepared, AllocError>
    ensures shown { (s : Server) (now : ℕ) (e : ServerEvent) → TablesShown t.old s
        → PreparesRuling t.new s now e (TakesIn connection) result }
    ensures room { (a : heard.Asked) → IfOk result (λ p. RoomToCarry t.new a p) }
    ensures step { (L : Logons) (a : heard.Asked) (now : ℕ) → IfOk result (λ p. PreparedStep L a now p) }
    ensures kept { TablesKeep t.old t.new }
{
    match t.sessions.reserve_connection() {
        Ok(()) => Ok(Prepared::TakesIn { connection }),
        Err(error) => Err(error),
    }
}
