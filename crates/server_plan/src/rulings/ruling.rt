//! What an event comes to, before anything changes.
ghost use Rattle.std.specs.Prelude.{◌≡◌, ◌||◌, IfOk, IsOk, false, is_some, true};
ghost use Rattle.spec_exchange.specs.Check.{has_session};
ghost use Rattle.spec_exchange.specs.Commands.{is_setup};
ghost use Rattle.spec_exchange.specs.Records.{origin_at};
ghost use Rattle.spec_exchange.specs.State.{Accept, Heard, Message, Server, ServerEvent};
ghost use Rattle.spec_exchange.specs.Step.{ruling, ruling_without_room};
ghost use Rattle.server_checks.specs.event_heard.Heard.{event_of};
ghost use Rattle.server_checks.specs.Shown.{TablesShown};
ghost use Rattle.server_plan.specs.rulings.Rulings.{AbleToRule, is_said, ruling_of};
ghost use Rattle.server_plan.specs.declared.rulings.ruling.Ruling.TheVariants.{Says};
ghost use Rattle.law_server.specs.tables.Fits.{Fits};

use journal_bytes::Origin;
use server_checks::{Asked, Tables, Verdict, without_room};
use server_effects::able_law;
use std::alloc::AllocError;

const MAX_CONNECTIONS: usize = 256;

/// The verdict on a message, or what becomes of connections. Quiet: files stay as they are, since no record fits.
#[derive(Drop)]
pub enum Ruling {
    Says { verdict: Verdict },
    TakesIn { connection: u32 },
    TurnsAway,
    TakesOut { connection: u32, quiet: bool },
    TakesAllOut { quiet: bool },
}

/// What an event comes to.
///
/// # Errors
///
/// Memory ran out at a message, behind the checks of its session and of signing and sealing; at no other event.
pub fn rule(t: &Tables, asked: &Asked<'_>) -> Result<Ruling, AllocError>
    ensures ruled { (s : Server) → Fits s → TablesShown t.now s
        → IfOk result (λ r. ruling_of (event_of asked.now) r ≡ ruling s (event_of asked.now)) }
    ensures sure { is_said asked.now ≡ false → IsOk result }
    ensures absent { (s : Server) (m : Message) → TablesShown t.now s → event_of asked.now ≡ Heard m
        → (is_setup m.command || has_session s m) ≡ false → IsOk result }
    ensures faulty { (m : Message) → event_of asked.now ≡ Heard m → is_some m.fault ≡ true → IsOk result }
{
    match asked {
        Asked::Says { message, .. } => match t.check(message) {
            Ok(verdict) => Ok(Ruling::Says { verdict }),
            Err(error) => Err(error),
        },
        Asked::Accept { connection } => Ok(on_accept(t, *connection)),
        Asked::End { connection } => Ok(Ruling::TakesOut {
            connection: *connection,
            quiet: false,
        }),
        Asked::Stop => Ok(Ruling::TakesAllOut { quiet: false }),
    }
}

fn on_accept(t: &Tables, connection: u32) -> Ruling
    ensures { (s : Server) → TablesShown t.now s → ruling_of (Accept connection) result ≡ ruling s (Accept connection) }
{
    if t.sessions.connections().len() >= MAX_CONNECTIONS {
        return Ruling::TurnsAway;
    }
    Ruling::TakesIn { connection }
}

/// What stands in its place where its records don't fit.
pub fn without_records(asked: &Asked<'_>, ruling: Ruling) -> Ruling
    ensures { ruling_of (event_of asked.now) result ≡ ruling_without_room (ruling_of (event_of asked.now) ruling) }
{
    match ruling {
        Ruling::Says { verdict } => verdict_without_records(asked, verdict),
        Ruling::TakesIn { connection } => Ruling::TakesIn { connection },
        Ruling::TurnsAway => Ruling::TurnsAway,
        Ruling::TakesOut { connection, .. } => Ruling::TakesOut {
            connection,
            quiet: true,
        },
        Ruling::TakesAllOut { .. } => Ruling::TakesAllOut { quiet: true },
    }
}

fn verdict_without_records(asked: &Asked<'_>, verdict: Verdict) -> Ruling
    ensures { ruling_of (event_of asked.now) result
        ≡ ruling_without_room (ruling_of (event_of asked.now) (Says verdict)) }
{
    match asked {
        Asked::Says { message, .. } => Ruling::Says {
            verdict: without_room(message, verdict),
        },
        _ => Ruling::Says { verdict },
    }
}

/// Where a record comes from that no message caused, on a connection or 0.
pub fn at_connection(connection: u32) -> Origin
    ensures { result ≡ origin_at connection }
{
    Origin {
        session: 0,
        connection,
        message: 0,
    }
}

/// What an event comes to can be carried out in a state that fits, and so can what stands in its place where its records find
/// no room.
pub fn ruling_law()
    ensures able { (s : Server) (e : ServerEvent) → Fits s → AbleToRule s (ruling s e) }
    ensures lesser { (s : Server) (e : ServerEvent) → Fits s → AbleToRule s (ruling_without_room (ruling s e)) }
{
    able_law();
}
