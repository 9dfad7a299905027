// The first word, and the words of `run`.
ghost use Rattle.std.specs.Prelude.{◌≡◌, map};
ghost use Rattle.std.specs.String.{string_bytes};
ghost use Rattle.serve_command.specs.server_settings.Words.{is_serve};
ghost use Rattle.smb311.specs.command.Top.{asks_client, asks_server, is_run, run_said};

use base_outside::Address;
use serve_command::address;

fn is_serve(word: &str) -> bool
    ensures { result ≡ is_serve word.now }
{
    word == "serve"
}

fn is_run(word: &str) -> bool
    ensures { result ≡ is_run word.now }
{
    word == "run"
}

/// Whether the first word is the server's.
pub(crate) fn asks_server(words: &[String]) -> bool
    ensures { result ≡ asks_server (map string_bytes words.now) }
{
    match words.split_first() {
        Some((word, _)) => is_serve(word.as_str()),
        None => false,
    }
}

/// Whether the first word is the client's.
pub(crate) fn asks_client(words: &[String]) -> bool
    ensures { result ≡ asks_client (map string_bytes words.now) }
{
    match words.split_first() {
        Some((word, _)) => is_run(word.as_str()),
        None => false,
    }
}

/// The address that the words `run ADDRESS` have. Of other words none.
pub(crate) fn run_said(words: &[String]) -> Option<Address>
    ensures { result ≡ run_said (map string_bytes words.now) }
{
    match words {
        [word, place] => {
            if is_run(word.as_str()) {
                address(place.as_bytes())
            } else {
                None
            }
        }
        _ => None,
    }
}
