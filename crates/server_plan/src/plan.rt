//! What an event comes to, with the body of its records.
ghost use Rattle.std.specs.Prelude.{◌≡◌, [], ℕ, IfOk, IsOk, IsOkAnd, false, length, true};
ghost use Rattle.spec_exchange.specs.State as model;
ghost use Rattle.spec_exchange.specs.Step as steps;
ghost use Rattle.spec_exchange.specs.Step.{carried_out};
ghost use Rattle.server_checks.specs.event_heard.Heard.{event_of};
ghost use Rattle.journal_bytes.specs.record_bodies.Body.{IsBodyOf, fits_by};
ghost use Rattle.server_checks.specs.Shown.{TablesShown};
ghost use Rattle.law_server.specs.tables.Fits.{Fits};
ghost use Rattle.server_plan.specs.Plans.{OwingOf, PlanFor, is_early, may_owe_by};
ghost use Rattle.server_plan.specs.rulings.Rulings.{ruling_of};

use crate::owed_records::owing_law;
use crate::owing::owed_by;
use crate::rulings::{Ruling, rule, without_records};
use journal_bytes::{body_law, spelled};
use server_checks::{Asked, Tables};
use std::alloc::{AllocError, Global};
use wire_bytes::Bytes;

// Entries that begin no epoch end here, and a body has its length in front, in 4 bytes, and the next gate behind.
const ROOM: u64 = 939_524_091;

/// What an event comes to, and its body for the journal, empty where it owes no record.
#[derive(Drop)]
pub struct Plan {
    pub ruling: Ruling,
    pub body: Bytes,
}

/// The ruling on an event at `now` (100 ns since 1601), or where its records don't fit the one without them.
///
/// # Errors
///
/// Memory ran out, which it can't for a connection that is made, nor for a message that the checks of its session and of
/// signing and sealing refuse.
pub fn plan_event(t: &Tables, asked: &Asked<'_>, now: u64) -> Result<Plan, AllocError>
    ensures plan { (s : model.Server) → Fits s → TablesShown t.now s
        → IfOk result (λ p. PlanFor p s now (event_of asked.now)) }
    ensures fits { IfOk result (λ p. fits_by t.now.journal (length p.body) ≡ true) }
    ensures early { (s : model.Server) → Fits s → TablesShown t.now s → is_early s (event_of asked.now) ≡ true
        → IsOkAnd result (λ p. (ruling_of (event_of asked.now) p.ruling ≡ steps.ruling s (event_of asked.now)) × (p.body ≡ [])) }
{
    match rule(t, asked) {
        Ok(ruling) => plan_by(t, asked, ruling, now),
        Err(error) => Err(error),
    }
}

// The same of a ruling.
fn plan_by(t: &Tables, asked: &Asked<'_>, ruling: Ruling, now: u64) -> Result<Plan, AllocError>
    ensures plan { (s : model.Server) → Fits s → TablesShown t.now s
        → ruling_of (event_of asked.now) ruling ≡ steps.ruling s (event_of asked.now)
        → IfOk result (λ p. PlanFor p s now (event_of asked.now)) }
    ensures fits { IfOk result (λ p. fits_by t.now.journal (length p.body) ≡ true) }
    ensures sure { (s : model.Server) → Fits s → TablesShown t.now s
        → ruling_of (event_of asked.now) ruling ≡ steps.ruling s (event_of asked.now)
        → may_owe_by (steps.ruling s (event_of asked.now)) ≡ false
        → IsOkAnd result (λ p. (ruling_of (event_of asked.now) p.ruling ≡ steps.ruling s (event_of asked.now)) × (p.body ≡ [])) }
{
    owing_law();
    match body_of(t, asked, &ruling, now) {
        Ok(body) => Ok(fitting(t, asked, ruling, body)),
        Err(error) => Err(error),
    }
}

// The ruling with its body where that fits, else the one without records.
fn fitting(t: &Tables, asked: &Asked<'_>, ruling: Ruling, body: Bytes) -> Plan
    ensures plan { (s : model.Server) (now : ℕ) → Fits s → TablesShown t.now s
        → ruling_of (event_of asked.now) ruling ≡ steps.ruling s (event_of asked.now)
        → IsBodyOf body (carried_out s now (ruling_of (event_of asked.now) ruling)).records
        → PlanFor result s now (event_of asked.now) }
    ensures fits { fits_by t.now.journal (length result.body) ≡ true }
{
    body_law();
    if fits(t, body.len()) {
        return Plan { ruling, body };
    }
    plan_without_records(t.alloc, asked, ruling)
}

// What stands in the place of a ruling whose records don't fit. It owes none.
fn plan_without_records(alloc: Global, asked: &Asked<'_>, ruling: Ruling) -> Plan
    ensures ruling { ruling_of (event_of asked.now) result.ruling
        ≡ steps.ruling_without_room (ruling_of (event_of asked.now) ruling) }
    ensures body { result.body ≡ [] }
{
    Plan {
        ruling: without_records(asked, ruling),
        body: Bytes::new(alloc),
    }
}

/// The body of the records of what an event comes to, as it is carried out at `now` (100 ns since 1601).
///
/// # Errors
///
/// Memory ran out, which it can't where no record is owed.
pub fn body_of(
    t: &Tables,
    asked: &Asked<'_>,
    ruling: &Ruling,
    now: u64,
) -> Result<Bytes, AllocError>
    ensures told { (s : model.Server) → Fits s → TablesShown t.now s → OwingOf s (ruling_of (event_of asked.now) ruling.now)
        → IfOk result (λ b. IsBodyOf b (carried_out s now (ruling_of (event_of asked.now) ruling.now)).records) }
    ensures sure { (s : model.Server) → Fits s → TablesShown t.now s → OwingOf s (ruling_of (event_of asked.now) ruling.now)
        → may_owe_by (ruling_of (event_of asked.now) ruling.now) ≡ false → IsOk result }
{
    match owed_by(t, asked, ruling, now) {
        Ok(records) => spelled(t.alloc, &records),
        Err(error) => Err(error),
    }
}

/// Whether a body of so many bytes fits below the lower limit; none always does.
pub fn fits(t: &Tables, length: usize) -> bool
    ensures { result ≡ fits_by t.now.journal length }
{
    if length == 0 {
        return true;
    }
    if t.journal > ROOM {
        return false;
    }
    let left = ROOM - t.journal;
    let wanted = length as u64;
    if wanted > left {
        return false;
    }
    true
}
