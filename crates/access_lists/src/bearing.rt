//! Whether a rule bears on a user and a path.
ghost use Rattle.std.specs.Prelude.{◌≡◌, ◌≤◌, ◌<◌, length};
ghost use Rattle.spec_exchange.specs.Texts.{upper, same_name, is_below};
ghost use Rattle.access_lists.specs.Decide.{is_of_user, is_within, bears_on};
ghost use Rattle.access_lists.specs.Index.{place_of};
ghost use Rattle.access_lists.specs.Walk.{begins_so};

use crate::rules::Rule;
use wire_bytes::Text;

/// Whether a rule bears on a user's name and a path.
#[tactic(auto, unfolding(crate::specs::Decide::bears_on))]
pub(crate) fn bears_on(rule: &Rule, user: &[u8], path: &[u8]) -> bool
    ensures { result ≡ bears_on rule.now user.now path.now }
{
    is_of_user(&rule.user, user) && is_within(rule.path.as_bytes(), path)
}

#[tactic(auto, unfolding(crate::specs::Decide::is_of_user))]
fn is_of_user(user: &Option<Text>, name: &[u8]) -> bool
    ensures { result ≡ is_of_user user.now name.now }
{
    match user {
        Some(user) => is_same_name(user.as_bytes(), name),
        None => true,
    }
}

// Equal but for the case of ASCII letters.
#[tactic(auto, using(crate::proofs::Comparing::same_by_begins))]
fn is_same_name(a: &[u8], b: &[u8]) -> bool
    ensures { result ≡ same_name a.now b.now }
{
    a.len() == b.len() && begins(a, b)
}

// Whether the components of a directory begin a path's.
#[tactic(auto, unfolding(crate::specs::Decide::is_within))]
fn is_within(directory: &[u8], path: &[u8]) -> bool
    ensures { result ≡ is_within directory.now path.now }
{
    is_same_name(directory, path) || is_below(directory, path)
}

/// Whether a path lies below a directory, at any depth.
#[tactic(auto, using(crate::proofs::Comparing::short_below, crate::proofs::Comparing::root_above, crate::proofs::Comparing::not_below, crate::proofs::Comparing::longer_below))]
pub(crate) fn is_below(directory: &[u8], path: &[u8]) -> bool
    ensures { result ≡ is_below directory.now path.now }
{
    if directory.len() >= path.len() {
        return false;
    }
    if directory.is_empty() {
        return true;
    }
    begins(directory, path) && path[directory.len()] == b'\\'
}

// Whether a text that is no longer than another begins it, by ASCII case.
fn begins(front: &[u8], text: &[u8]) -> bool
    requires { length front.now ≤ length text.now }
    ensures { result ≡ begins_so front.now text.now }
{
    let mut i = 0;
    while i < front.len() {
        if upper(front[i]) != upper(text[i]) {
            return false;
        }
        i += 1;
    }
    true
}

#[tactic(auto, unfolding(spec_exchange::specs::Texts::upper))]
fn upper(byte: u8) -> u8
    ensures { result ≡ upper byte }
{
    byte.to_ascii_uppercase()
}

/// Where the rules of a path's first component are looked for.
pub(crate) fn place_of(path: &[u8]) -> u32
    ensures is { result ≡ place_of path.now }
    ensures below { result < 64 }
{
    let mut place: u32 = 0;
    let mut i = 0;
    while i < path.len() {
        if path[i] == b'\\' {
            return place;
        }
        place = (place * 31 + u32::from(upper(path[i]))) % 64;
        i += 1;
    }
    place
}
