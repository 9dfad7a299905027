// What the server is set up with by a script.
ghost use Rattle.std.specs.Prelude.{◌≡◌, ◌++◌, ◌∷◌, [], IfOk, OnOk, false, map};
ghost use Rattle.law_scripts.specs.script_setup.Scripts.{seals, user_of};
ghost use Rattle.script_words.specs.text_lines.Script.{nothing_given};
ghost use Rattle.script_words.specs.text_lines.Settings.{settings_of};
ghost use Rattle.drill_command.specs.drill_setup.Setup.{IsServerOf};

use crypto_sessions::Users;
use script_words::text_lines::Settings;
use script_words::{Cipher, Given, User, UserList, with_defaults};
use server_checks::Config;
use std::alloc::{AllocError, Global};
use wire_commands::Address;

/// One more who may log on.
fn push_user(copied: &mut Users, user: &User) -> Result<(), AllocError>
    ensures { OnOk result (copied.new ≡ record copied.old { list = copied.old.list ++ user_of user.now ∷ [] }) }
{
    let name = user.name.copy()?;
    let password = user.password.copy()?;
    copied.push(name, password)
}

/// Those who may log on, by SPNEGO's tokens alone.
fn users_of(alloc: Global, users: &[User]) -> Result<Users, AllocError>
    ensures { IfOk result (λ us. us ≡ record { list = map user_of users.now; bare = false }) }
{
    let mut copied = Users::new(alloc, false);
    for user in users {
        push_user(&mut copied, user)?;
    }
    Ok(copied)
}

/// Whether the server seals: where the client offers a cipher.
fn seals_with(cipher: Cipher) -> bool
    ensures { result ≡ seals cipher }
{
    match cipher {
        Cipher::None => false,
        Cipher::Ccm => true,
        Cipher::Gcm => true,
        Cipher::Ccm256 => true,
        Cipher::Gcm256 => true,
    }
}

/// What the server of a drill is configured with: 127.0.0.1, port 445.
pub fn server_config(alloc: Global, settings: &Settings) -> Result<Config, AllocError>
    ensures { IfOk result (λ config. IsServerOf settings.now config) }
{
    Ok(Config {
        users: users_of(alloc, settings.users.as_slice())?,
        share: settings.share.copy()?,
        room: settings.room,
        encrypts: seals_with(settings.cipher),
        address: Address {
            ip: 0x7f00_0001,
            port: 445,
        },
    })
}

/// The settings of a script that gives none.
pub fn plain_settings(alloc: Global) -> Result<Settings, AllocError>
    ensures { IfOk result (λ settings. settings ≡ settings_of nothing_given) }
{
    let given = Given {
        cipher: None,
        signing: None,
        room: None,
        users: UserList::new(alloc),
        share: None,
        channels: None,
        begun: false,
    };
    with_defaults(alloc, given)
}
