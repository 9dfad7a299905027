// A world behind its last event.
ghost use Rattle.std.specs.Prelude.{◌≡◌, IfOk};
ghost use Rattle.store_files.specs.file_tree.Stored.{AreFiles};
ghost use Rattle.spec_world.specs.Settings.{WorldSettings};
ghost use Rattle.spec_world.specs.World as bytes;
ghost use Rattle.world_ends.specs.results.Ended.{ShowsEnded};
ghost use Rattle.world_ends.specs.Shown.{ShowsWorld};

use crate::{Book, Client, Places, World};
use base_outside::MemDisk;
use client_values::Why;
use std::alloc::{AllocError, Global};
use store_files::StoredFile;

/// What is left of a world: the client, of which nothing is unsettled, the server, and the places of the messages that it took.
#[derive(Drop)]
pub struct EndedWorld {
    pub alloc: Global,
    pub client: Client,
    pub book: Option<Book<MemDisk>>,
    pub places: Places,
}

/// The last event was. What isn't settled is unknown, with the cause `Ended`.
pub fn end(world: World) -> EndedWorld
    ensures { (z : WorldSettings) (w : bytes.World) → ShowsWorld z world w → ShowsEnded z result w }
{
    let World {
        alloc,
        client,
        book,
        places,
        ..
    } = world;
    EndedWorld {
        alloc,
        client: client.end(Why::Ended),
        book,
        places,
    }
}

/// All files, no directories, in byte order of their paths, with their bytes.
pub fn files(world: &EndedWorld) -> Result<Vec<StoredFile>, AllocError>
    ensures { IfOk result (λ v. (z : WorldSettings) (w : bytes.World) → ShowsEnded z world.now w → AreFiles v.items w.values.server) }
{
    match &world.book {
        Some(book) => book.server.files(),
        None => Err(AllocError),
    }
}
