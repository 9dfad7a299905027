//! The state that a server begins with.
ghost use Rattle.std.specs.Prelude.{◌≡◌, ℕ, IfErr, IfOk, List};
ghost use Rattle.spec_journal.specs.Forms.{StandsFor};
ghost use Rattle.spec_wire.specs.journal.Moments.{LeavesOnly};
ghost use Rattle.server_core.specs.server_start.Begun.{ServerBegins};
ghost use Rattle.server_core.specs.restart_tables.Restart.{RestartLeaves, StartRefused};

use crate::journaled_tables::ServerState;
use crate::restart_tables::restart;
use base_outside::Disk;
use journal::RefusedStart;
use server_checks::Config;
use std::alloc::Global;

/// A server's state on the disk that an earlier one left, or on an empty one: it holds what the journal's records stand for, under the
/// next epoch, which goes into the journal.
///
/// `NotAJournal` has the place where the bytes are no journal, or the gate of the first body that no server writes; `Full` what the
/// journal would use with the epoch, and its limit; `DiskFault` the count of faults, which rose; `Memory` may come at any read.
/// Where it refuses, it hands back the disk, which stands for what it stood for.
pub fn recover_state<D: Disk>(
    alloc: Global,
    disk: D,
    config: Config,
) -> Result<ServerState<D>, RefusedStart<D>>
    ensures holds { IfOk result (λ c. ServerBegins D.told D.seen D.may_leave D.faults config disk c) }
    ensures refused { IfErr result (λ r. StartRefused D.told D.seen D.may_leave D.moment D.left_since D.faults disk r.disk r.cause) }
    ensures any_moment { IfOk result (λ c. D.told → (all : List (List ℕ)) → StandsFor (D.seen disk) all
        → LeavesOnly D.moment D.left_since disk c.journal.disk (RestartLeaves (D.may_leave disk) all)) }
    ensures config { IfOk result (λ c. c.tables.config ≡ config) }
{
    match restart(alloc, disk, config) {
        Ok((journal, tables)) => Ok(ServerState {
            journal,
            tables,
            stopped: None,
        }),
        Err(refused) => Err(refused),
    }
}
