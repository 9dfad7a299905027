ghost use Rattle.std.specs.Prelude.{◌≡◌, ◌≤◌, ◌<◌, ◌+◌, ◌-◌, ◌==◌, ℕ, List, [], false, length, map, get_or, Option, IfSome, IfNone, IfOk};
ghost use Rattle.std.specs.Prelude.{take, drop};
ghost use Rattle.std.specs.String.{string_bytes};
ghost use Rattle.std.specs.Char.{to_ascii_uppercase};
ghost use Rattle.spec_exchange.specs.Commands.{path_form};
ghost use Rattle.spec_exchange.specs.Content.{same_bytes};
ghost use Rattle.spec_exchange.specs.Texts.{units_of, utf16_length, is_plain, is_component, components_from, is_path};
ghost use Rattle.spec_exchange.specs.Texts.{begins_with_backslash};

use std::alloc::{AllocError, Global};

const INVALID_PARAMETER: u32 = 0xc000_000d;

const OBJECT_NAME_INVALID: u32 = 0xc000_0033;

/// A path as names compare: the letters a to z as A to Z.
pub fn key_of(alloc: Global, path: &str) -> Result<String, AllocError>
    ensures { IfOk result (λ k. string_bytes k ≡ map to_ascii_uppercase path.now) }
{
    path.to_ascii_uppercase(alloc)
}

/// How many UTF-16 units a text has.
#[tactic(auto, unfolding(spec_exchange::specs::Texts::utf16_length))]
pub fn units(text: &[u8]) -> u64
    ensures { result ≡ utf16_length text.now }
{
    let mut units = 0;
    for byte in text {
        units += units_of(*byte);
    }
    units
}

#[tactic(auto, unfolding(spec_exchange::specs::Texts::units_of))]
fn units_of(byte: u8) -> u64
    ensures is { result ≡ units_of byte }
    ensures few { result ≤ 2 }
{
    if byte >= 240 {
        2
    } else if byte >= 192 {
        1
    } else if byte >= 128 {
        0
    } else {
        1
    }
}

// No control character and none of " * / : < > ? |
#[tactic(auto, unfolding(spec_exchange::specs::Texts::is_plain))]
fn is_plain(byte: u8) -> bool
    ensures { result ≡ is_plain byte }
{
    byte >= 32
        && !(byte == 34
            || byte == 42
            || byte == 47
            || byte == 58
            || byte == 60
            || byte == 62
            || byte == 63
            || byte == 124)
}

/// A component: not empty, not `.` and not `..`.
#[tactic(auto, unfolding(spec_exchange::specs::Texts::is_component))]
pub fn is_component(name: &[u8]) -> bool
    ensures { result ≡ is_component name.now }
{
    !is_same(name, b"") && !is_same(name, b".") && !is_same(name, b"..")
}

// The same bytes.
fn is_same(a: &[u8], b: &[u8]) -> bool
    ensures { result ≡ same_bytes a.now b.now }
{
    a == b
}

fn are_components(path: &[u8]) -> bool
    ensures { result ≡ components_from [] path.now }
{
    let mut first = 0;
    let mut i = 0;
    while i < path.len() {
        let Some(next) = read_one(path, first, i) else {
            return false;
        };
        first = next;
        i += 1;
    }
    is_component(&path[first..])
}

// Where the component begins in which the reading goes on behind a byte. None where the byte ends one that is no
// component, or stands in no name.
fn read_one(path: &[u8], first: usize, i: usize) -> Option<usize>
    requires { (first ≤ i) × (i < length path.now) }
    ensures some { IfSome result (λ n. (n ≤ i + 1) × (components_from (take (i - first) (drop first path.now))
        (drop i path.now) ≡ components_from (take (i + 1 - n) (drop n path.now)) (drop (i + 1) path.now))) }
    ensures none { IfNone result (components_from (take (i - first) (drop first path.now)) (drop i path.now) ≡ false) }
{
    if path[i] != b'\\' {
        return plain_byte(path, first, i);
    }
    if is_component(&path[first..i]) {
        return Some(i + 1);
    }
    None
}

fn plain_byte(path: &[u8], first: usize, i: usize) -> Option<usize>
    requires { (first ≤ i) × (i < length path.now) × ((get_or path.now i 0 == 92) ≡ false) }
    ensures some { IfSome result (λ n. (n ≤ i + 1) × (components_from (take (i - first) (drop first path.now))
        (drop i path.now) ≡ components_from (take (i + 1 - n) (drop n path.now)) (drop (i + 1) path.now))) }
    ensures none { IfNone result (components_from (take (i - first) (drop first path.now)) (drop i path.now) ≡ false) }
{
    if is_plain(path[i]) {
        return Some(first);
    }
    None
}

// A path of the share. The empty path is the root.
#[tactic(auto, unfolding(spec_exchange::specs::Texts::is_path))]
fn is_path(path: &[u8]) -> bool
    ensures { result ≡ is_path path.now }
{
    path.is_empty() || units(path) <= 1024 && are_components(path)
}

/// Whether a path begins with a backslash.
#[tactic(auto, unfolding(spec_exchange::specs::Texts::begins_with_backslash))]
pub fn begins_with_backslash(path: &[u8]) -> bool
    ensures { result ≡ begins_with_backslash path.now }
{
    match path.first() {
        Some(byte) => *byte == b'\\',
        None => false,
    }
}

/// The status of the form rule that a path breaks: INVALID_PARAMETER for one that begins with a backslash,
/// OBJECT_NAME_INVALID for more than 1,024 UTF-16 units, a component that is empty, `.` or `..`, or a character that
/// no name has.
#[tactic(auto, unfolding(spec_exchange::specs::Commands::path_form))]
pub fn path_form(path: &str) -> Option<u32>
    ensures { result ≡ path_form path.now }
{
    let bytes = path.as_bytes();
    if begins_with_backslash(bytes) {
        Some(INVALID_PARAMETER)
    } else if is_path(bytes) {
        None
    } else {
        Some(OBJECT_NAME_INVALID)
    }
}
