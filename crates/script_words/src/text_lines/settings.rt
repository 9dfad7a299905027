// The settings of a script, with those that it doesn't give.
ghost use Rattle.std.specs.Prelude.{◌≡◌, codes, IfOk};
ghost use Rattle.script_words.specs.text_lines.Settings as settings;

use crate::{Cipher, Given, Signing, User, UserList};
use std::alloc::{AllocError, Global};
use wire_bytes::Text;

const ROOM: u64 = 268_435_456;

const CHANNELS: u32 = 2;

/// What both ends are set up with.
#[derive(Drop, Debug)]
pub struct Settings {
    /// What the client offers first.
    pub cipher: Cipher,
    /// What the client offers first to sign with.
    pub signing: Signing,
    /// How many bytes all files may have.
    pub room: u64,
    /// At least one. A client logs on as the first.
    pub users: UserList,
    pub share: Text,
    /// How many channels the client makes.
    pub channels: u32,
}

/// The settings that were given, and for each other its default: AES-128-GCM, AES-CMAC, 268,435,456 bytes, `user` with
/// the password `Password`, the
/// share `data`, two channels.
#[tactic(auto, unfolding(crate::specs::text_lines::Settings::settings_of))]
pub fn with_defaults(alloc: Global, given: Given) -> Result<Settings, AllocError>
    ensures { IfOk result (λ s. s ≡ settings.settings_of given) }
{
    let users = users_or(alloc, given.users)?;
    let share = share_or(alloc, given.share)?;
    Ok(Settings {
        cipher: given.cipher.unwrap_or(Cipher::Gcm),
        signing: given.signing.unwrap_or(Signing::Cmac),
        room: given.room.unwrap_or(ROOM),
        users,
        share,
        channels: given.channels.unwrap_or(CHANNELS),
    })
}

fn users_or(alloc: Global, mut users: UserList) -> Result<UserList, AllocError>
    ensures { IfOk result (λ us. us ≡ settings.users_or users) }
{
    if users.is_empty() {
        let name = Text::from_str(alloc, "user")?;
        let password = Text::from_str(alloc, "Password")?;
        users.push(User { name, password })?;
    }
    Ok(users)
}

fn share_or(alloc: Global, share: Option<Text>) -> Result<Text, AllocError>
    ensures { IfOk result (λ s. s ≡ settings.or_else (codes "data") share) }
{
    match share {
        Some(share) => Ok(share),
        None => Text::from_str(alloc, "data"),
    }
}
