// A server begins on an empty disk, or on the disk that another one left.
ghost use Rattle.std.specs.Prelude.{◌≡◌, ◌++◌, IfOk, List, []};
ghost use Rattle.spec_exchange.specs.Fold.{recovered, recovered_from, recovery_records};
ghost use Rattle.spec_exchange.specs.State as model;
ghost use Rattle.server_core.specs.server_start.Begun.{ServerBegins};
ghost use Rattle.server_core.specs.Shown.{config_of, state_of};
ghost use Rattle.server_core.specs.restart_tables.Restart.{configuration_of};
ghost use Rattle.spec_crypto.specs.tokens.Tokens.{Users};
ghost use Rattle.world_ends.specs.memory_server.Held.{WorldHolds, may_leave, world_seen, world_told};
ghost use Rattle.spec_world.specs.Ends.{Logons};

use crate::memory_server::copying::copy_of;
use base_outside::MemDisk;
use server_checks::Config;
use server_core::{Book, Server, begun_law};
use std::alloc::{AllocError, Global};
use wire_bytes::Bytes;

/// A journal without room for the next epoch counts as memory that ran out.
fn begin_on(alloc: Global, disk: MemDisk, config: Config) -> Result<Book<MemDisk>, AllocError>
    ensures begins { IfOk result (λ b. ServerBegins world_told world_seen may_leave (λ d. d.faults) config disk (state_of b.server)) }
    ensures config { IfOk result (λ b. config_of b.server ≡ config) }
{
    match Server::recover(alloc, disk, config) {
        Ok(server) => Ok(Book { alloc, server }),
        Err(_) => Err(AllocError),
    }
}

fn empty_disk(alloc: Global) -> Result<MemDisk, AllocError>
    ensures { IfOk result (λ d. d.bytes ≡ []) }
{
    MemDisk::new(alloc, Bytes::new(alloc), Bytes::new(alloc))
}

/// Begins on an empty disk.
pub fn begin(alloc: Global, config: Config) -> Result<Book<MemDisk>, AllocError>
    ensures { IfOk result (λ b. (L : Logons)
        → WorldHolds b config.users (recovered (configuration_of config) 9 []) L (recovery_records [])) }
{
    begun_law::<MemDisk>();
    let disk = empty_disk(alloc)?;
    begin_on(alloc, disk, config)
}

/// Begins anew on the disk that a server left, under the same configuration.
pub fn restart(book: Book<MemDisk>) -> Result<Book<MemDisk>, AllocError>
    ensures { IfOk result (λ b. (users : Users) (s : model.Server) (L : Logons) (records : List model.Record)
        → WorldHolds book users s L records → WorldHolds b users (recovered_from s records) L (records ++ recovery_records records)) }
{
    begun_law::<MemDisk>();
    let Book { alloc, server } = book;
    let config = copy_of(alloc, server.config())?;
    begin_on(alloc, server.stop(), config)
}
