//! What a request says of a rename and of a durable open.
ghost use Rattle.std.specs.Prelude.{◌≡◌};
ghost use Rattle.wire_commands.specs.values.Meaning.{command_of, setting_of};
ghost use Rattle.spec_exchange.specs.Effects.{timeout_of};
ghost use Rattle.server_checks.specs.verdicts.Views.{path_in, path_in_setting};

use wire_commands::{Command, Message, Setting};

// The path of a rename; of another message none.
pub(crate) fn path_of<'m>(m: &'m Message<'_>) -> &'m str
    ensures { result.now ≡ path_in (command_of m.now.command) }
{
    match &m.command {
        Command::SetInfo { setting, .. } => path_in(setting),
        _ => "",
    }
}

fn path_in(setting: &Setting) -> &str
    ensures { result.now ≡ path_in_setting (setting_of setting.now) }
{
    match setting {
        Setting::Rename { path, .. } => path.as_str(),
        _ => "",
    }
}

// The timeout that a durable open gets, in milliseconds: for 0 a minute, and at most five.
#[tactic(auto, unfolding(spec_exchange::specs::Effects::timeout_of))]
pub(crate) fn timeout_of(timeout: u32) -> u32
    ensures { result ≡ timeout_of timeout }
{
    if timeout == 0 {
        60_000
    } else if timeout > 300_000 {
        300_000
    } else {
        timeout
    }
}
