//! The records of connections that are lost (MS-SMB2 3.3.7.1), told before they are.
ghost use Rattle.std.specs.Prelude.{◌≡◌, ℕ, IfOk, IsOk, false, true};
ghost use Rattle.spec_exchange.specs.Effects.{end_records, records_if_named};
ghost use Rattle.spec_exchange.specs.Records.{origin_at};
ghost use Rattle.spec_exchange.specs.State.{Server};
ghost use Rattle.spec_exchange.specs.Step.{ends_with, take_all_records};
ghost use Rattle.journal_bytes.specs.record_bytes.Meaning.{records_of};
ghost use Rattle.server_checks.specs.Shown.{TablesShown};
ghost use Rattle.law_server.specs.tables.Fits.{Fits};

use crate::rulings::ruling::at_connection;
use journal_bytes::{Origin, Records};
use server_checks::Tables;
use server_effects::{Leaving, all_end_records, end_in};
use std::alloc::AllocError;

/// The records of the session, where there is one, that ends with a connection that is lost. Quiet, there are none.
///
/// # Errors
///
/// Memory ran out, which it can't where the end is quiet.
pub fn lost_records(t: &Tables, connection: u32, quiet: bool) -> Result<Records, AllocError>
    ensures told { (s : Server) → Fits s → TablesShown t.now s
        → IfOk result (λ rs. records_of rs ≡ records_if_named s (origin_at connection) (ends_with s connection) quiet) }
    ensures sure { quiet ≡ true → IsOk result }
{
    if quiet {
        return Ok(Records::new(t.alloc));
    }
    match t.sessions.ends_with(connection) {
        Some(session) => session_records(t, at_connection(connection), session),
        None => Ok(Records::new(t.alloc)),
    }
}

fn session_records(t: &Tables, origin: Origin, session: u64) -> Result<Records, AllocError>
    ensures { (s : Server) → Fits s → TablesShown t.now s
        → IfOk result (λ rs. records_of rs ≡ end_records s origin session false) }
{
    let mut records = Records::new(t.alloc);
    let mut leaving = Leaving::new(t.alloc);
    match end_in(
        &t.opens,
        &t.tree,
        &mut leaving,
        &mut records,
        origin,
        session,
    ) {
        Ok(()) => Ok(records),
        Err(error) => Err(error),
    }
}

/// The records of a stop, at which all connections are lost one behind the other. Quiet, there are none.
///
/// # Errors
///
/// Memory ran out, which it can't where the ends are quiet.
pub fn all_lost_records(t: &Tables, quiet: bool) -> Result<Records, AllocError>
    ensures told { (s : Server) (now : ℕ) → Fits s → TablesShown t.now s
        → IfOk result (λ rs. records_of rs ≡ take_all_records s s.connections now quiet) }
    ensures sure { quiet ≡ true → IsOk result }
{
    if quiet {
        return Ok(Records::new(t.alloc));
    }
    all_end_records(t.alloc, &t.opens, &t.tree, &t.sessions)
}
