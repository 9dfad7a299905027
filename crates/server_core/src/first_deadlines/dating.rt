//! An event that was prepared, carried out.
ghost use Rattle.std.specs.Prelude.{◌≡◌, Some, length};
ghost use Rattle.spec_exchange.specs.State.{Server};
ghost use Rattle.spec_exchange.specs.Step.{carried_out, with_deadlines};
ghost use Rattle.server_checks.specs.event_heard.Heard.{event_of, heard_event, part_in};
ghost use Rattle.server_checks.specs.declared.event_heard.asked.LogonPart.{LogonPart};
ghost use Rattle.server_checks.specs.declared.event_heard.event.ServerEvent.{ServerEvent};
ghost use Rattle.server_effects.specs.Carried.{Carried};
ghost use Rattle.server_checks.specs.setups.Setups.{progress_of};
ghost use Rattle.server_core.specs.journaled_tables.Beside.{BesideCarried};
ghost use Rattle.server_core.specs.journaled_tables.Heard.{IsJournaledHeard};
ghost use Rattle.server_core.specs.journaled_tables.Rulings.{MayRule};
ghost use Rattle.law_server.specs.tables.Fits.{Fits};
ghost use Rattle.server_effects.specs.prepared_event.Prepared.{IsPrepared, RoomToCarry, prepared_ruling};
ghost use Rattle.server_plan.specs.rulings.Rulings.{AbleToRule};
ghost use Rattle.server_plan.specs.logon_steps.Steps.{PreparedStep};
ghost use Rattle.server_checks.specs.session_table.Logons.{LogonsShown};
ghost use Rattle.spec_crypto.specs.tokens.Tokens.{Users};
ghost use Rattle.spec_world.specs.Ends.{Logons};

use crate::logon_progress::progress_law;
use law_records::{dated_law, making_law};
use server_checks::{Asked, Tables};
use server_effects::{Answer, Prepared, carry_event, dated_effects_law};

/// Gives each open that a recovery found its first deadline, and carries out what was prepared of the event, at `now` (100 ns since
/// 1601). None of it takes memory, and none of it can fail.
pub fn carry_dated(t: &mut Tables, asked: &Asked<'_>, prepared: Prepared, now: u64) -> Answer
    requires { RoomToCarry t.old asked.now prepared }
    ensures shows { (s : Server) → Fits s → IsPrepared t.old s now (event_of asked.now) prepared
        → AbleToRule s (prepared_ruling (event_of asked.now) prepared)
        → Carried t.new result (carried_out (with_deadlines s now) now (prepared_ruling (event_of asked.now) prepared)) }
    ensures beside { (users : Users) (s : Server) (L : Logons) (e : ServerEvent) → Fits s
        → IsPrepared t.old s now (event_of asked.now) prepared
        → MayRule s (event_of asked.now) (prepared_ruling (event_of asked.now) prepared)
        → AbleToRule s (prepared_ruling (event_of asked.now) prepared)
        → IsJournaledHeard users L s e asked.now → LogonsShown t.old.sessions L.keys L.pending → PreparedStep L asked.now now prepared
        → BesideCarried t.new users L e now (progress_of (heard_event users L s e)
        (carried_out (with_deadlines s now) now (prepared_ruling (event_of asked.now) prepared)).reply) result }
    ensures config { t.new.config ≡ t.old.config }
{
    dated_law();
    dated_effects_law();
    making_law();
    progress_law();
    are_eight(asked);
    // A restart has no clock, so the first event gives the moment. It does so here, since an event that finds no
    // memory changes nothing.
    t.opens.date(now);
    carry_event(t, asked, prepared, now)
}

// The random bytes of a logon are 8.
fn are_eight(asked: &Asked<'_>)
    ensures { (p : LogonPart) → part_in asked.now ≡ Some p → length p.fresh ≡ 8 }
{
    if let Asked::Says {
        logon: Some(part),
        ..
    } = asked
    {
        is_eight(&part.fresh);
    }
}

fn is_eight(fresh: &[u8; 8])
    ensures { length fresh.now ≡ 8 }
{
    let _count = fresh.len();
}
