//! The tables of a server that begins.
ghost use Rattle.std.specs.Prelude.{◌≡◌, min};
ghost use Rattle.spec_exchange.specs.Fold.{full_room};
ghost use Rattle.spec_exchange.specs.State.{Server};
ghost use Rattle.server_checks.specs.Shown.{TablesShown};
ghost use Rattle.server_core.specs.durable_state.Durable.{DurableShown};
ghost use Rattle.server_core.specs.restart_tables.Restart.{IsServerBegun, configuration_of, configured};
ghost use Rattle.server_checks.specs.session_table.Logons.{LogonsShown};
ghost use Rattle.server_checks.specs.session_table.Shown.{ShowsSessions};
ghost use Rattle.spec_world.specs.Ends.{no_logons};

use crate::durable_state::{Durable, FULL_ROOM};
use server_checks::session_table::Sessions;
use server_checks::{Config, Tables};
use std::alloc::Global;

// What outlived the last server, under a configuration, with no session and no connection.
pub(crate) fn tables_of(alloc: Global, state: Durable, config: Config, journal: u64) -> Tables
    ensures shown { (s : Server) → DurableShown state s → IsServerBegun s
        → TablesShown result (configured s (configuration_of config) journal) }
    ensures logons { LogonsShown result.sessions no_logons.keys no_logons.pending }
    ensures config { result.config ≡ config }
{
    let Durable {
        version,
        epoch,
        mut tree,
        opens,
        ..
    } = state;
    tree.set_room(room_of(config.room));
    let sessions = sessions_of(alloc, epoch);
    Tables {
        alloc,
        config,
        tree,
        opens,
        sessions,
        version,
        journal,
    }
}

fn room_of(room: u64) -> u64
    ensures { result ≡ min room full_room }
{
    if room < FULL_ROOM { room } else { FULL_ROOM }
}

fn sessions_of(alloc: Global, epoch: u32) -> Sessions
    ensures shown { (s : Server) → s.epoch ≡ epoch → IsServerBegun s → ShowsSessions result s }
    ensures logons { LogonsShown result no_logons.keys no_logons.pending }
{
    let mut sessions = Sessions::new(alloc);
    sessions.begin_epoch(epoch);
    sessions
}
