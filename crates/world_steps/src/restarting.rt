// The server starts anew on its disk.
ghost use Rattle.std.specs.Prelude.{◌++◌, List, MatchResult, OnOk};
ghost use Rattle.spec_exchange.specs.Fold.{recovered_from, recovery_records};
ghost use Rattle.spec_exchange.specs.State as model;
ghost use Rattle.spec_crypto.specs.tokens.Tokens.{Users};
ghost use Rattle.world_ends.specs.memory_server.Held.{WorldHolds, HoldsBook};
ghost use Rattle.spec_world.specs.Ends.{Logons};
ghost use Rattle.world_ends.specs.declared.events.WorldEvent.TheVariants as events;
ghost use Rattle.world_steps.specs.Lists.{ChangedAll, ClosesServer};
ghost use Rattle.world_steps.specs.Parts.{IsWorldMemory, WorldRestarts};
ghost use Rattle.world_steps.specs.Steps.{WorldSteps};

use crate::moments::later;
use base_outside::MemDisk;
use std::alloc::AllocError;
use world_ends::{Book, Channel, World, WorldError, restart as begin_anew};

/// Each server's end closes.
fn close_servers(channels: &mut Vec<Channel>)
    ensures { ChangedAll ClosesServer channels.old.items channels.new.items }
{
    for channel in channels.iter_mut() {
        channel.close_server();
    }
}

/// The server of a disk begins anew on it.
fn renew(place: &mut Option<Book<MemDisk>>, book: Book<MemDisk>) -> Result<(), AllocError>
    ensures { OnOk result ((users : Users) (s : model.Server) (L : Logons) (records : List model.Record)
        → WorldHolds book users s L records
        → HoldsBook place.new users (recovered_from s records) L (records ++ recovery_records records)) }
{
    match begin_anew(book) {
        Ok(new) => {
            *place = Some(new);
            Ok(())
        }
        Err(error) => Err(error),
    }
}

/// Where memory runs out there is no server any more.
fn restart_book(place: &mut Option<Book<MemDisk>>) -> Result<(), AllocError>
    ensures { OnOk result ((users : Users) (s : model.Server) (L : Logons) (records : List model.Record)
        → HoldsBook place.old users s L records
        → HoldsBook place.new users (recovered_from s records) L (records ++ recovery_records records)) }
{
    match place.take() {
        Some(book) => renew(place, book),
        None => Err(AllocError),
    }
}

/// Each server's end closes, and the server stands at what its records stand for.
pub fn restart_server(
    book: &mut Option<Book<MemDisk>>,
    channels: &mut Vec<Channel>,
) -> Result<(), WorldError>
    ensures { MatchResult result (λ _. WorldRestarts book.old channels.old.items book.new channels.new.items) (λ e. IsWorldMemory e) }
{
    match restart_book(book) {
        Ok(()) => {
            close_servers(channels);
            Ok(())
        }
        Err(_) => Err(WorldError::Memory),
    }
}

/// The server starts anew.
pub fn restart(world: &mut World) -> Result<(), WorldError>
    ensures { WorldSteps world.old events.Restart world.new result }
{
    match restart_server(&mut world.book, &mut world.channels) {
        Ok(()) => {
            later(world, 1);
            Ok(())
        }
        Err(why) => Err(why),
    }
}
