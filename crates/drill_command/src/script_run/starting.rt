// A world before the first line of a script.
ghost use Rattle.std.specs.Prelude.{◌≡◌, IfOk, IfSome};
ghost use Rattle.client_ends.specs.dialog_calls.Ending.{CanConnect};
ghost use Rattle.law_scripts.specs.script_setup.Scripts.{drill_settings, first_user};
ghost use Rattle.spec_world.specs.Events.{bytes_start};
ghost use Rattle.world_ends.specs.Shown.{ShowsWorld};

use crate::drill_setup::server_config;
use crate::settling::{World, begin};
use client_book::client_config;
use script_words::User;
use script_words::text_lines::Settings;
use std::alloc::{AllocError, Global};

/// The client logs on as this user.
fn world_as(
    alloc: Global,
    settings: &Settings,
    user: &User,
    seed: [u8; 32],
) -> Result<World, AllocError>
    ensures { IfOk result (λ world. first_user settings.now.users ≡ user.now → CanConnect settings.now.share
        → ShowsWorld (drill_settings settings.now seed) world (bytes_start (drill_settings settings.now seed))) }
{
    let config = server_config(alloc, settings)?;
    let client = client_config(alloc, settings, user, *b"smb311-client-01")?;
    begin(alloc, config, *b"smb311-server-01", client, seed)
}

fn first_of(users: &[User]) -> Option<&User>
    ensures { IfSome result (λ user. first_user users.now ≡ user.now) }
{
    match users.split_first() {
        Some((first, _)) => Some(first),
        None => None,
    }
}

/// A world before its first line: an empty disk, no operation, nothing on its way. The client logs on as the first user; settings without
/// a user, which no script has, count as memory that ran out.
pub fn world_of(alloc: Global, settings: &Settings, seed: [u8; 32]) -> Result<World, AllocError>
    ensures { IfOk result (λ world. CanConnect settings.now.share
        → ShowsWorld (drill_settings settings.now seed) world (bytes_start (drill_settings settings.now seed))) }
{
    match first_of(settings.users.as_slice()) {
        Some(user) => world_as(alloc, settings, user, seed),
        None => Err(AllocError),
    }
}
