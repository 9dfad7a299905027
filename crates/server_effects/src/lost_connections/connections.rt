//! Connections that are lost (MS-SMB2 3.3.7.1).
ghost use Rattle.std.specs.Prelude.{◌≡◌, ◌||◌, slice_get};
ghost use Rattle.spec_exchange.specs.Effects.{acts_if_named};
ghost use Rattle.spec_exchange.specs.State.{Server};
ghost use Rattle.spec_exchange.specs.Step.{ends_with, take_all_acts, take_all_out, take_out};
ghost use Rattle.server_checks.specs.session_table.Logons.{LogonsStay};
ghost use Rattle.server_checks.specs.Shown.{TablesShown};
ghost use Rattle.server_effects.specs.lost_connections.Lost.{first_acts, first_out};
ghost use Rattle.law_server.specs.tables.Fits.{Fits};

use crate::session_ends::end_if_named;
use server_checks::Tables;

/// A connection is lost at `now` (100 ns since 1601), with the session that has its last channel on it. Tells whether that
/// acted.
pub fn take_out(t: &mut Tables, connection: u32, now: u64, is_quiet: bool) -> bool
    ensures told { (s : Server) → Fits s → TablesShown t.old s → result ≡ acts_if_named s (ends_with s connection) }
    ensures shows { (s : Server) → Fits s → TablesShown t.old s → TablesShown t.new (take_out s connection now is_quiet) }
    ensures config { t.new.config ≡ t.old.config }
    ensures logons { LogonsStay t.old.sessions t.new.sessions }
{
    let session = t.sessions.ends_with(connection);
    let acted = end_if_named(t, session, now, is_quiet);
    t.sessions.forget(connection);
    acted
}

// The first connection is lost, where there is one.
fn take_first(t: &mut Tables, now: u64, is_quiet: bool) -> bool
    ensures told { (s : Server) → Fits s → TablesShown t.old s → result ≡ first_acts s s.connections }
    ensures shows { (s : Server) → Fits s → TablesShown t.old s
        → TablesShown t.new (first_out s s.connections now is_quiet) }
    ensures config { t.new.config ≡ t.old.config }
    ensures logons { LogonsStay t.old.sessions t.new.sessions }
{
    match first_connection(t) {
        Some(connection) => take_out(t, connection, now, is_quiet),
        None => false,
    }
}

fn first_connection(t: &Tables) -> Option<u32>
    ensures { (s : Server) → TablesShown t.now s → result ≡ slice_get s.connections 0 }
{
    first_of(t.sessions.connections())
}

fn first_of(list: &[u32]) -> Option<u32>
    ensures { result ≡ slice_get list.now 0 }
{
    list.first().copied()
}

/// All are lost at `now` (100 ns since 1601), in the order in which they came. Tells whether that acted.
pub fn take_all_out(t: &mut Tables, now: u64, is_quiet: bool) -> bool
    ensures told { (s : Server) → Fits s → TablesShown t.old s → result ≡ take_all_acts s s.connections now is_quiet }
    ensures shows { (s : Server) → Fits s → TablesShown t.old s
        → TablesShown t.new (take_all_out s s.connections now is_quiet) }
    ensures config { t.new.config ≡ t.old.config }
    ensures logons { LogonsStay t.old.sessions t.new.sessions }
{
    let count = t.sessions.connections().len();
    let mut acted = false;
    for turn in 0..count {
        let one = take_first(t, now, is_quiet);
        acted = is_either(acted, one);
    }
    acted
}

fn is_either(one: bool, other: bool) -> bool
    ensures { result ≡ (one || other) }
{
    one || other
}
