//! An event carried out: the verdict on its message, or what becomes of connections.
ghost use Rattle.std.specs.Prelude.{◌≡◌, ℕ, ◌+◌, List, [], ◌∷◌, ◌++◌};
ghost use Rattle.spec_exchange.specs.State.{Server};
ghost use Rattle.spec_exchange.specs.Step.{carried_out};
ghost use Rattle.server_checks.specs.session_table.Changes.{connection_taken_in};
ghost use Rattle.server_checks.specs.session_table.Logons.{LogonsStay};
ghost use Rattle.server_checks.specs.session_table.Shown.{HasConnectionRoom};
ghost use Rattle.server_effects.specs.event_effects.Acts.{BesidePrepared, IsConnectionAnswer};
ghost use Rattle.server_checks.specs.event_heard.Heard.{event_of};
ghost use Rattle.server_checks.specs.Shown.{TablesShown};
ghost use Rattle.server_effects.specs.Carried.{Carried};
ghost use Rattle.law_server.specs.tables.Fits.{Fits};
ghost use Rattle.server_effects.specs.prepared_event.Prepared.{AbleToCarry, IsPrepared, RoomToCarry, prepared_ruling};
ghost use Rattle.server_effects.specs.declared.prepared_event.prepared.Prepared.TheVariants.{Says};

use crate::Answer;
use crate::lost_connections::{take_all_out, take_out};
use crate::prepared_event::Prepared;
use crate::reserved::Ready;
use crate::verdict_effects::carry_out;
use server_checks::status::{INSUFFICIENT_RESOURCES, SUCCESS};
use server_checks::{Asked, Tables};
use std::alloc::Global;
use wire_bytes::Bytes;
use wire_commands::{Body, Reply};

/// Carries out what was prepared of an event, at `now` (100 ns since 1601).
pub fn carry_event(t: &mut Tables, asked: &Asked<'_>, prepared: Prepared, now: u64) -> Answer
    requires { RoomToCarry t.old asked.now prepared }
    ensures shows { (s : Server) → Fits s → IsPrepared t.old s now (event_of asked.now) prepared
        → AbleToCarry s (event_of asked.now) prepared
        → Carried t.new result (carried_out s now (prepared_ruling (event_of asked.now) prepared)) }
    ensures beside { BesidePrepared t.old t.new result (event_of asked.now) prepared }
    ensures config { t.new.config ≡ t.old.config }
{
    match prepared {
        Prepared::Says { ready } => carry_verdict(t, asked, ready, now),
        Prepared::TakesIn { connection } => {
            take_in(t, connection);
            connection_answer(t.alloc, SUCCESS, false)
        }
        Prepared::TurnsAway => connection_answer(t.alloc, INSUFFICIENT_RESOURCES, false),
        Prepared::TakesOut { connection, quiet } => {
            let acted = take_out(t, connection, now, quiet);
            connection_answer(t.alloc, SUCCESS, acted)
        }
        Prepared::TakesAllOut { quiet } => {
            let acted = take_all_out(t, now, quiet);
            connection_answer(t.alloc, SUCCESS, acted)
        }
    }
}

// The verdict on a message. No other event has one.
fn carry_verdict(t: &mut Tables, asked: &Asked<'_>, ready: Ready, now: u64) -> Answer
    requires { RoomToCarry t.old asked.now (Says ready) }
    ensures shows { (s : Server) → Fits s → IsPrepared t.old s now (event_of asked.now) (Says ready)
        → AbleToCarry s (event_of asked.now) (Says ready)
        → Carried t.new result (carried_out s now (prepared_ruling (event_of asked.now) (Says ready))) }
    ensures beside { BesidePrepared t.old t.new result (event_of asked.now) (Says ready) }
    ensures config { t.new.config ≡ t.old.config }
{
    match asked {
        Asked::Says { message, .. } => carry_out(t, message, ready, now),
        _ => connection_answer(t.alloc, INSUFFICIENT_RESOURCES, false),
    }
}

// A connection comes.
fn take_in(t: &mut Tables, connection: u32)
    requires { HasConnectionRoom t.old.sessions }
    ensures shows { (s : Server) → TablesShown t.old s → TablesShown t.new (connection_taken_in s connection) }
    ensures config { t.new.config ≡ t.old.config }
    ensures logons { LogonsStay t.old.sessions t.new.sessions }
{
    t.sessions.take_in(connection);
}

// It goes into no message, so it has neither ids nor a body.
fn connection_answer(alloc: Global, status: u32, acted: bool) -> Answer
    ensures { IsConnectionAnswer result status acted }
{
    Answer {
        reply: Reply {
            status,
            session_id: 0,
            tree_id: 0,
            body: Body::Empty,
        },
        acted,
        token: Bytes::new(alloc),
        keys: None,
        channel: None,
    }
}
