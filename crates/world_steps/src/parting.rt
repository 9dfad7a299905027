// The server's end of a connection closes.
ghost use Rattle.std.specs.Prelude.{◌≡◌, IfOk, List, MatchResult, slice_get};
ghost use Rattle.spec_exchange.specs.State as model;
ghost use Rattle.spec_exchange.specs.Step.{step};
ghost use Rattle.spec_crypto.specs.tokens.Tokens.{Users};
ghost use Rattle.world_ends.specs.memory_server.Held.{HoldsBook};
ghost use Rattle.spec_world.specs.Ends.{Logons};
ghost use Rattle.world_ends.specs.Tests.{served_in};
ghost use Rattle.world_ends.specs.declared.events.WorldEvent.TheVariants as events;
ghost use Rattle.world_steps.specs.Lists.{ChangedAt, ClosesServer};
ghost use Rattle.world_steps.specs.Parts.{BookTold, Drops, IsWorldMemory};
ghost use Rattle.world_steps.specs.Steps.{WorldSteps};

use crate::moments::later;
use base_outside::MemDisk;
use std::alloc::AllocError;
use world_ends::{Book, Channel, World, WorldError, end};

/// Whether the server's end of a connection is open.
pub fn is_served(channels: &[Channel], k: u32) -> bool
    ensures { result ≡ served_in (slice_get channels.now k) }
{
    match channels.get(k as usize) {
        Some(channel) => channel.is_server_open(),
        None => false,
    }
}

/// It closes.
pub fn close_server(channels: &mut Vec<Channel>, k: u32)
    ensures { ChangedAt ClosesServer k channels.old.items channels.new.items }
{
    let at = k as usize;
    let within = at < channels.len();
    if within {
        channels[at].close_server();
    }
}

/// The server hears that the connection is lost.
fn tell_end(book: &mut Option<Book<MemDisk>>, moment: u64, k: u32) -> Result<u32, AllocError>
    ensures { IfOk result (λ status. (users : Users) (s : model.Server) (L : Logons) (records : List model.Record)
        → HoldsBook book.old users s L records → BookTold (step s moment (model.End k)) book.new users L records status) }
{
    match book {
        Some(book) => end(book, moment, k),
        None => Err(AllocError),
    }
}

/// The server's end closes, and the server hears of it.
pub fn drop_end(
    book: &mut Option<Book<MemDisk>>,
    channels: &mut Vec<Channel>,
    moment: u64,
    k: u32,
) -> Result<(), WorldError>
    ensures { MatchResult result (λ _. Drops book.old channels.old.items moment k book.new channels.new.items) (λ e. IsWorldMemory e) }
{
    match tell_end(book, moment, k) {
        Ok(_) => {
            close_server(channels, k);
            Ok(())
        }
        Err(_) => Err(WorldError::Memory),
    }
}

/// The server ends a connection by itself.
pub fn drop_server(world: &mut World, k: u32) -> Result<(), WorldError>
    ensures { WorldSteps world.old (events.Drop k) world.new result }
{
    if !is_served(&world.channels, k) {
        return Err(WorldError::NoChannel(k));
    }
    match drop_end(&mut world.book, &mut world.channels, world.moment, k) {
        Ok(()) => {
            later(world, 1);
            Ok(())
        }
        Err(why) => Err(why),
    }
}
