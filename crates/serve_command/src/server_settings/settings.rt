//! What a server is told by its settings.
ghost use Rattle.std.specs.Prelude.{◌≡◌, ◌++◌, ◌∷◌, [], IfOk, OnOk};
ghost use Rattle.script_words.specs.Outcome.{OutcomeGives};
ghost use Rattle.script_words.specs.text_lines.Settings.{settings_of};
ghost use Rattle.serve_command.specs.server_settings.Served as served;
ghost use Rattle.serve_command.specs.server_settings.Settings as settings;

use crate::server_settings::marking::{line_count, mark};
use crate::server_settings::own::{takes_bare, watch_of};
use crate::server_settings::refusal::SettingsRefusal;
use base_outside::{Address, Printed, Watch};
use crypto_sessions::Users;
use script_words::text_lines::script;
use script_words::{Cipher, Command, Fault, Given, User, with_defaults};
use server_checks::Config;
use std::alloc::{AllocError, Global};
use wire_commands::Address as Told;

/// What settings tell: the server, and the net that is to watch over its links.
#[derive(Drop)]
pub struct Setup {
    pub config: Config,
    pub watch: Watch,
}

fn seals(cipher: Cipher) -> bool
    ensures { result ≡ settings.served_seals cipher }
{
    match cipher {
        Cipher::None => false,
        Cipher::Ccm | Cipher::Gcm | Cipher::Ccm256 | Cipher::Gcm256 => true,
    }
}

fn add_user(list: &mut Users, user: &User) -> Result<(), AllocError>
    ensures { OnOk result (list.new ≡ record list.old { list = list.old.list ++ settings.user_of user.now ∷ [] }) }
{
    let name = user.name.copy()?;
    let password = user.password.copy()?;
    list.push(name, password)?;
    Ok(())
}

fn users_of(alloc: Global, users: &[User], bare: bool) -> Result<Users, AllocError>
    ensures { IfOk result (λ list. list ≡ record { list = settings.users_of users.now; bare = bare }) }
{
    let mut list = Users::new(alloc, bare);
    for user in users {
        add_user(&mut list, user)?;
    }
    Ok(list)
}

fn config_of(alloc: Global, given: Given, at: Address, bare: bool) -> Result<Config, AllocError>
    ensures { IfOk result (λ c. c ≡ settings.config_of (settings_of given) at bare) }
{
    let settings = with_defaults(alloc, given)?;
    let users = users_of(alloc, settings.users.as_slice(), bare)?;
    let share = settings.share.copy()?;
    Ok(Config {
        users,
        share,
        room: settings.room,
        encrypts: seals(settings.cipher),
        address: Told {
            ip: at.ip,
            port: at.port,
        },
    })
}

fn is_loopback(at: Address) -> bool
    ensures { result ≡ settings.is_loopback at }
{
    at.ip / 0x0100_0000 == 127
}

fn lacks_user(at: Address, given: &Given) -> bool
    ensures { result ≡ settings.lacks_user at given.now }
{
    given.users.is_empty() && !is_loopback(at)
}

fn given_in(
    alloc: Global,
    text: &[u8],
    marked: &[u8],
    at: Address,
) -> Result<Given, Fault<SettingsRefusal>>
    requires { marked.now ≡ served.marked text.now }
    ensures { OutcomeGives (λ given. given) result (settings.given_due at text.now) }
{
    let given = match script(alloc, Command::Serve, marked) {
        Ok(script) => script.given,
        Err(Fault::Memory) => return Err(Fault::Memory),
        Err(Fault::Refused(refusal)) => return Err(Fault::Refused(SettingsRefusal::Line(refusal))),
    };
    if lacks_user(at, &given) {
        return Err(Fault::Refused(SettingsRefusal::NoUser(line_count(text) + 1)));
    }
    Ok(given)
}

/// What settings tell a server that is reached at an address, or why they are refused: their first refused line; else, where they name no
/// user and the address is no loopback address, the line behind the last.
pub fn config_in(alloc: Global, text: &[u8], at: Address) -> Result<Setup, Fault<SettingsRefusal>>
    ensures { OutcomeGives (λ s. s) result (settings.config_due at text.now) }
{
    let marked = mark(alloc, text)?;
    let given = given_in(alloc, text, marked.text.as_slice(), at)?;
    let config = config_of(alloc, given, at, takes_bare(&marked.own))?;
    let watch = watch_of(&marked.own);
    Ok(Setup { config, watch })
}

/// Which lines of a log a text of settings asks for, also where a line of it is refused; nothing where memory runs out.
pub(crate) fn printed_by(alloc: Global, text: &[u8]) -> Printed {
    match mark(alloc, text) {
        Ok(marked) => watch_of(&marked.own).printed,
        Err(_) => Printed::Nothing,
    }
}
