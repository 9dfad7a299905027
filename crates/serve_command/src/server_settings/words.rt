//! The words of the command.
ghost use Rattle.std.specs.Prelude.{◌≡◌, map, option_map};
ghost use Rattle.std.specs.String.{string_bytes};
ghost use Rattle.log.specs.Level.{parse_filter};
ghost use Rattle.script_words.specs.Numbers as numbers;
ghost use Rattle.script_words.specs.Pieces.{pieces};
ghost use Rattle.serve_command.specs.server_settings.Words as says;

use base_outside::Address;
use log::LevelFilter;
use script_words::{Pieces, number_to};
use std::str::FromStr;

/// How many connections are served before the command ends, and which of them are told.
#[derive(Clone, Copy, Debug)]
pub struct Bound {
    /// 1 to 1,000,000
    pub count: usize,
    pub level: LevelFilter,
}

/// What the words say: where to listen, and for how long to serve; without end where no bound is given.
#[derive(Clone, Copy, Debug)]
pub struct Said {
    pub address: Address,
    pub bound: Option<Bound>,
}

fn byte(word: &[u8]) -> Option<u8>
    ensures { result ≡ numbers.number_to 255 word.now }
{
    match number_to(255, word) {
        Some(number) => Some(number as u8),
        None => None,
    }
}

fn next_byte(pieces: &mut Pieces<'_>) -> Option<u8>
    ensures { option_map (λ n. (n, pieces.new)) result ≡ says.next_byte pieces.old }
{
    match pieces.next() {
        Some(word) => byte(word),
        None => None,
    }
}

#[tactic(auto, unfolding(crate::specs::server_settings::Words::ip_of))]
fn ip(host: &[u8]) -> Option<u32>
    ensures { result ≡ says.ip_of (pieces 46 host.now) }
{
    let mut pieces = Pieces::new(host, b'.');
    let first = next_byte(&mut pieces)?;
    let second = next_byte(&mut pieces)?;
    let third = next_byte(&mut pieces)?;
    let fourth = next_byte(&mut pieces)?;
    if !pieces.is_empty() {
        return None;
    }
    Some(u32::from_be_bytes([first, second, third, fourth]))
}

fn port(word: &[u8]) -> Option<u16>
    ensures { result ≡ says.port_of word.now }
{
    match number_to(65_535, word) {
        Some(number) if number != 0 => Some(number as u16),
        _ => None,
    }
}

fn next_ip(pieces: &mut Pieces<'_>) -> Option<u32>
    ensures { option_map (λ n. (n, pieces.new)) result ≡ says.next_ip pieces.old }
{
    match pieces.next() {
        Some(host) => ip(host),
        None => None,
    }
}

fn next_port(pieces: &mut Pieces<'_>) -> Option<u16>
    ensures { option_map (λ n. (n, pieces.new)) result ≡ says.next_port pieces.old }
{
    match pieces.next() {
        Some(word) => port(word),
        None => None,
    }
}

/// An address as `a.b.c.d:port`, in decimal numbers without leading zeros; the port is not 0.
#[tactic(auto, unfolding(crate::specs::server_settings::Words::address_of))]
pub fn address(word: &[u8]) -> Option<Address>
    ensures { result ≡ says.address_of (pieces 58 word.now) }
{
    let mut pieces = Pieces::new(word, b':');
    let ip = next_ip(&mut pieces)?;
    let port = next_port(&mut pieces)?;
    if !pieces.is_empty() {
        return None;
    }
    Some(Address { ip, port })
}

fn count_of(word: &[u8]) -> Option<usize>
    ensures { result ≡ says.count_of word.now }
{
    match number_to(1_000_000, word) {
        Some(number) if number != 0 => Some(number as usize),
        _ => None,
    }
}

fn level_of(word: &str) -> Option<LevelFilter>
    ensures { result ≡ parse_filter word.now }
{
    match LevelFilter::from_str(word) {
        Ok(level) => Some(level),
        Err(_) => None,
    }
}

fn bound_of(count: &[u8], level: &str) -> Option<Bound>
    ensures { result ≡ says.bound_of count.now level.now }
{
    let count = count_of(count)?;
    let level = level_of(level)?;
    Some(Bound { count, level })
}

fn unbounded(place: &[u8]) -> Option<Said>
    ensures { result ≡ says.unbounded place.now }
{
    let address = address(place)?;
    Some(Said {
        address,
        bound: None,
    })
}

fn bounded(place: &[u8], count: &[u8], level: &str) -> Option<Said>
    ensures { result ≡ says.bounded place.now count.now level.now }
{
    let address = address(place)?;
    let bound = bound_of(count, level)?;
    Some(Said {
        address,
        bound: Some(bound),
    })
}

fn is_serve(word: &str) -> bool
    ensures { result ≡ says.is_serve word.now }
{
    word == "serve"
}

/// What the words say: `serve ADDRESS`, or `serve ADDRESS COUNT LEVEL`, where COUNT is 1 to 1,000,000 and LEVEL is the name of a filter
/// of the crate `log`, in any case. Else nothing.
pub fn read_words(words: &[String]) -> Option<Said>
    ensures { result ≡ says.said (map string_bytes words.now) }
{
    match words {
        [word, place] => {
            if is_serve(word.as_str()) {
                unbounded(place.as_bytes())
            } else {
                None
            }
        }
        [word, place, count, level] => {
            if is_serve(word.as_str()) {
                bounded(place.as_bytes(), count.as_bytes(), level.as_str())
            } else {
                None
            }
        }
        _ => None,
    }
}
