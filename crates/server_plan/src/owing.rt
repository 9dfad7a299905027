//! The records of what an event comes to.
ghost use Rattle.std.specs.Prelude.{◌≡◌, IfOk, IsOk, false};
ghost use Rattle.spec_exchange.specs.State.{Server};
ghost use Rattle.spec_exchange.specs.Step.{carried_out};
ghost use Rattle.journal_bytes.specs.record_bytes.Meaning.{records_of};
ghost use Rattle.server_checks.specs.event_heard.Heard.{event_of};
ghost use Rattle.server_checks.specs.Shown.{TablesShown};
ghost use Rattle.law_server.specs.tables.Fits.{Fits};
ghost use Rattle.server_plan.specs.Plans.{OwingOf, may_owe_by};
ghost use Rattle.server_plan.specs.rulings.Rulings.{ruling_of};
ghost use Rattle.server_plan.specs.declared.rulings.ruling.Ruling.TheVariants.{Says};

use crate::owed_records::owed;
use crate::rulings::{Ruling, all_lost_records, lost_records};
use journal_bytes::Records;
use server_checks::{Asked, Tables, Verdict};
use std::alloc::AllocError;

/// The records of what an event comes to, as it is carried out at `now` (100 ns since 1601).
///
/// # Errors
///
/// Memory ran out, which it can't where none is owed.
pub fn owed_by(
    t: &Tables,
    asked: &Asked<'_>,
    ruling: &Ruling,
    now: u64,
) -> Result<Records, AllocError>
    ensures told { (s : Server) → Fits s → TablesShown t.now s → OwingOf s (ruling_of (event_of asked.now) ruling.now)
        → IfOk result (λ rs. records_of rs ≡ (carried_out s now (ruling_of (event_of asked.now) ruling.now)).records) }
    ensures sure { may_owe_by (ruling_of (event_of asked.now) ruling.now) ≡ false → IsOk result }
{
    match ruling {
        Ruling::Says { verdict } => owed_on_message(t, asked, verdict, now),
        Ruling::TakesIn { .. } => Ok(Records::new(t.alloc)),
        Ruling::TurnsAway => Ok(Records::new(t.alloc)),
        Ruling::TakesOut { connection, quiet } => lost_records(t, *connection, *quiet),
        Ruling::TakesAllOut { quiet } => all_lost_records(t, *quiet),
    }
}

fn owed_on_message(
    t: &Tables,
    asked: &Asked<'_>,
    verdict: &Verdict,
    now: u64,
) -> Result<Records, AllocError>
    ensures told { (s : Server) → Fits s → TablesShown t.now s → OwingOf s (ruling_of (event_of asked.now) (Says verdict.now))
        → IfOk result (λ rs. records_of rs
        ≡ (carried_out s now (ruling_of (event_of asked.now) (Says verdict.now))).records) }
    ensures sure { may_owe_by (ruling_of (event_of asked.now) (Says verdict.now)) ≡ false → IsOk result }
{
    match asked {
        Asked::Says { message, .. } => owed(
            t.alloc,
            &t.opens,
            &t.tree,
            &t.sessions,
            message,
            verdict,
            now,
        ),
        _ => Ok(Records::new(t.alloc)),
    }
}
