// A world begins.
ghost use Rattle.std.specs.Prelude.{◌≡◌, ◌≤◌, ◌∷◌, [], take, IfOk};
ghost use Rattle.spec_wire.specs.messages.Places.{number_of};
ghost use Rattle.spec_world.specs.Events.{bytes_start};
ghost use Rattle.spec_world.specs.Settings.{WorldSettings, draw};
ghost use Rattle.world_ends.specs.Places.{no_marks as unmarked};
ghost use Rattle.world_ends.specs.Shown.{ShowsWorld};
ghost use Rattle.world_steps.specs.beginning.Starting.{AreClosed, IsBegunBy};

use byteorder::{ByteOrder, LittleEndian};
use client_ends::ClientConfig;
use server_checks::Config;
use spec_crypto::{Keys, Signer};
use std::alloc::{AllocError, Global};
use world_ends::{Channel, Marks, Notes, Places, Played, World, begin as begin_book, draw_8};

/// Connections count from 0 on.
const CHANNELS: usize = 256;

/// Of no session.
fn no_keys() -> Keys
    ensures { result.cipher ≤ 4 }
{
    Keys {
        signing: Signer {
            key: [0; 16],
            algorithm: 1,
        },
        to_server: [0; 32],
        to_client: [0; 32],
        cipher: 0,
        session: 0,
    }
}

fn salt_of(seed: &[u8; 32]) -> u64
    ensures { result ≡ number_of (take 8 (draw seed.now 0)) }
{
    LittleEndian::read_u64(&draw_8(seed, 0))
}

/// Connections of which both ends are closed.
fn closed(alloc: Global) -> Result<Vec<Channel>, AllocError>
    ensures { IfOk result (λ v. AreClosed 256 v.items) }
{
    let mut channels = Vec::with_capacity(alloc, CHANNELS)?;
    let mut count = 0;
    while count < CHANNELS {
        channels.push(Channel::new(alloc))?;
        count += 1;
    }
    Ok(channels)
}

/// What is known of operation 0, which is none.
fn no_marks(alloc: Global) -> Result<Vec<Marks>, AllocError>
    ensures { IfOk result (λ v. v.items ≡ unmarked ∷ []) }
{
    let mut marks = Vec::with_capacity(alloc, 1)?;
    marks.push(Marks {
        first: None,
        by: None,
        birth: 0,
    })?;
    Ok(marks)
}

/// A client without operations, and a server on an empty disk. The first draw is the random half of the client's CreateGuids. `config` is
/// the server's, and `guid` its ServerGuid.
pub fn begin(
    alloc: Global,
    config: Config,
    guid: [u8; 16],
    settings: ClientConfig,
    seed: [u8; 32],
) -> Result<World, AllocError>
    ensures { IfOk result (λ x. (z : WorldSettings) → IsBegunBy z config guid settings seed → ShowsWorld z x (bytes_start z)) }
{
    let channels = closed(alloc)?;
    let marks = no_marks(alloc)?;
    let book = begin_book(alloc, config)?;
    let client = Played::new(alloc);
    let served = Vec::new(alloc);
    Ok(World {
        alloc,
        seed,
        draws: 1,
        moment: 0,
        settings,
        guid,
        salt: salt_of(&seed),
        client,
        accepted: 0,
        making: None,
        keys: no_keys(),
        encrypts: false,
        numbers: 0,
        book: Some(book),
        channels,
        places: Places { served, marks },
        notes: Notes::new(),
    })
}
