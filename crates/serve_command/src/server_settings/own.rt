//! The settings that `serve` alone knows: how it watches over its connections, which lines it prints meanwhile, and which
//! tokens it takes.
ghost use Rattle.std.specs.Prelude.{◌≡◌, option_map};
ghost use Rattle.std.specs.Str.{bytes_eq};
ghost use Rattle.script_words.specs.Pieces.{pieces};
ghost use Rattle.serve_command.specs.server_settings.Served as served;

use base_outside::{Printed, Watch};
use script_words::{Pieces, number_to};

/// The longest time, in seconds: a day.
const LONGEST: u64 = 86_400;

/// The most connections that there are at once.
const MOST_PEERS: u64 = 256;

/// How long a connection is waited for, in seconds.
#[derive(Clone, Copy)]
pub(crate) struct Patience {
    /// Until it has a session.
    pub logon: u32,
    /// Until its next frame, where its session has no open.
    pub idle: u32,
}

/// The settings that lines have given so far.
#[derive(Clone, Copy)]
pub(crate) struct Own {
    pub printed: Option<Printed>,
    pub patience: Option<Patience>,
    pub peers: Option<u32>,
    /// Whether NTLM's messages are taken alone too.
    pub bare: Option<bool>,
}

fn is_word(word: &[u8], name: &str) -> bool
    ensures { result ≡ bytes_eq word.now name.now }
{
    word == name.as_bytes()
}

fn printed_of(word: &[u8]) -> Option<Printed>
    ensures { result ≡ served.printed_of word.now }
{
    if is_word(word, "error") {
        Some(Printed::Errors)
    } else if is_word(word, "warn") {
        Some(Printed::Warnings)
    } else if is_word(word, "info") {
        Some(Printed::All)
    } else {
        None
    }
}

fn next_printed(words: &mut Pieces<'_>) -> Option<Printed>
    ensures { option_map (λ p. (p, words.new)) result ≡ served.next_printed words.old }
{
    match words.next() {
        Some(word) => printed_of(word),
        None => None,
    }
}

#[tactic(auto, unfolding(crate::specs::server_settings::Served::log_said))]
fn log_said(own: &Own, words: &mut Pieces<'_>) -> Option<Own>
    ensures { result ≡ served.log_said own.now words.old }
{
    if own.printed.is_some() {
        return None;
    }
    let printed = next_printed(words)?;
    if !words.is_empty() {
        return None;
    }
    Some(Own {
        printed: Some(printed),
        patience: own.patience,
        peers: own.peers,
        bare: own.bare,
    })
}

fn seconds(word: &[u8]) -> Option<u32>
    ensures { result ≡ served.seconds_of word.now }
{
    match number_to(LONGEST, word) {
        Some(number) if number != 0 => Some(number as u32),
        _ => None,
    }
}

fn next_seconds(words: &mut Pieces<'_>) -> Option<u32>
    ensures { option_map (λ n. (n, words.new)) result ≡ served.next_seconds words.old }
{
    match words.next() {
        Some(word) => seconds(word),
        None => None,
    }
}

#[tactic(auto, unfolding(crate::specs::server_settings::Served::patience_said))]
fn patience_said(own: &Own, words: &mut Pieces<'_>) -> Option<Own>
    ensures { result ≡ served.patience_said own.now words.old }
{
    if own.patience.is_some() {
        return None;
    }
    let logon = next_seconds(words)?;
    let idle = next_seconds(words)?;
    if !words.is_empty() {
        return None;
    }
    Some(Own {
        printed: own.printed,
        patience: Some(Patience { logon, idle }),
        peers: own.peers,
        bare: own.bare,
    })
}

fn peers(word: &[u8]) -> Option<u32>
    ensures { result ≡ served.peers_of word.now }
{
    match number_to(MOST_PEERS, word) {
        Some(number) if number != 0 => Some(number as u32),
        _ => None,
    }
}

fn next_peers(words: &mut Pieces<'_>) -> Option<u32>
    ensures { option_map (λ n. (n, words.new)) result ≡ served.next_peers words.old }
{
    match words.next() {
        Some(word) => peers(word),
        None => None,
    }
}

#[tactic(auto, unfolding(crate::specs::server_settings::Served::peers_said))]
fn peers_said(own: &Own, words: &mut Pieces<'_>) -> Option<Own>
    ensures { result ≡ served.peers_said own.now words.old }
{
    if own.peers.is_some() {
        return None;
    }
    let peers = next_peers(words)?;
    if !words.is_empty() {
        return None;
    }
    Some(Own {
        printed: own.printed,
        patience: own.patience,
        peers: Some(peers),
        bare: own.bare,
    })
}

fn bare_of(word: &[u8]) -> Option<bool>
    ensures { result ≡ served.bare_of word.now }
{
    if is_word(word, "any") {
        Some(true)
    } else if is_word(word, "spnego") {
        Some(false)
    } else {
        None
    }
}

fn next_bare(words: &mut Pieces<'_>) -> Option<bool>
    ensures { option_map (λ b. (b, words.new)) result ≡ served.next_bare words.old }
{
    match words.next() {
        Some(word) => bare_of(word),
        None => None,
    }
}

#[tactic(auto, unfolding(crate::specs::server_settings::Served::tokens_said))]
fn tokens_said(own: &Own, words: &mut Pieces<'_>) -> Option<Own>
    ensures { result ≡ served.tokens_said own.now words.old }
{
    if own.bare.is_some() {
        return None;
    }
    let bare = next_bare(words)?;
    if !words.is_empty() {
        return None;
    }
    Some(Own {
        printed: own.printed,
        patience: own.patience,
        peers: own.peers,
        bare: Some(bare),
    })
}

/// The settings behind one line more; nothing where it gives none, gives one again, or isn't in its form.
pub(crate) fn own_said(own: &Own, line: &[u8]) -> Option<Own>
    ensures { result ≡ served.own_said own.now (pieces 32 line.now) }
{
    let mut words = Pieces::new(line, b' ');
    let name = words.next()?;
    if is_word(name, "log") {
        log_said(own, &mut words)
    } else if is_word(name, "patience") {
        patience_said(own, &mut words)
    } else if is_word(name, "peers") {
        peers_said(own, &mut words)
    } else if is_word(name, "tokens") {
        tokens_said(own, &mut words)
    } else {
        None
    }
}

/// Whether the settings take NTLM's messages alone too; where they don't say it, SPNEGO's tokens alone are taken.
pub(crate) fn takes_bare(own: &Own) -> bool
    ensures { result ≡ served.takes_bare own.now }
{
    own.bare.unwrap_or(false)
}

/// What the settings tell the net, with a default for each that wasn't given.
pub(crate) fn watch_of(own: &Own) -> Watch
    ensures { result ≡ served.watch_of own.now }
{
    let patience = own.patience.unwrap_or(Patience {
        logon: 30,
        idle: 900,
    });
    Watch {
        printed: own.printed.unwrap_or(Printed::Nothing),
        logon: patience.logon,
        idle: patience.idle,
        peers: own.peers.unwrap_or(128),
    }
}
