ghost use Rattle.std.specs.Prelude.{◌≡◌, ◌+◌, ◌-◌, ◌*◌, ◌≤◌, ◌<◌, ◌&&◌, nat_le, nat_lt, ℕ, List, Bool, true, false, [], ◌∷◌, ◌==◌};
ghost use Rattle.std.specs.Prelude.{length, drop, IfOk, IfSome, IfNone};
ghost use Rattle.spec_exchange.specs.Listing.{accepts, matches, after_character};
ghost use Rattle.spec_exchange.specs.Texts.{upper};
ghost use Rattle.store_files.specs.names.Walks.{IsUnderWay, LeadsBehind, turns};

use std::alloc::{AllocError, Global};

/// Whether a pattern accepts a name: `*` stands for any characters, `?` for one, and letters count as the same in both
/// cases (MS-FSA 2.1.4.4). An empty pattern accepts all. It ends at the first character that doesn't fit where no `*`
/// stood before, takes time as the sum of the two lengths for usual patterns and as their product at most, and takes no
/// memory, so no error comes.
pub fn accepts(_alloc: Global, pattern: &[u8], name: &[u8]) -> Result<bool, AllocError>
    ensures { IfOk result (λ b. b ≡ accepts pattern.now name.now) }
{
    if is_any(pattern) {
        return Ok(true);
    }
    Ok(fits(pattern, name))
}

// The patterns that accept each name: the empty one and `*`.
fn is_any(pattern: &[u8]) -> bool
    ensures any { result ≡ true → (name : List ℕ) → accepts pattern.now name ≡ true }
    ensures some { result ≡ false → 0 < length pattern.now }
{
    match pattern {
        [] => true,
        [only] => *only == b'*',
        _ => false,
    }
}

// How far a pattern and a name are compared. What an earlier `*` could take more needs no look: where the part between
// two `*` fits, the later one can take that too.
#[derive(Clone, Copy)]
struct Walk {
    // The place in the pattern, and that in the name.
    i: usize,
    j: usize,
    // The place behind the last `*`, 0 before the first, and the one in the name where it was last tried from there.
    behind: usize,
    from: usize,
}

fn fits(pattern: &[u8], name: &[u8]) -> bool
    ensures { result ≡ matches pattern.now name.now }
{
    let mut walk = Walk {
        i: 0,
        j: 0,
        behind: 0,
        from: 0,
    };
    while (walk.i < pattern.len()) | (walk.j < name.len()) {
        let Some(next) = step(pattern, name, walk) else {
            return false;
        };
        walk = next;
    }
    true
}

// One step: onward where what comes next fits, else back to the last `*`, which takes one byte more. None where nothing
// is left to try, as at the name's end: what doesn't fit there fits at no later place.
fn step(pattern: &[u8], name: &[u8], walk: Walk) -> Option<Walk>
    requires stands { IsUnderWay pattern.now name.now walk.i walk.j walk.behind walk.from }
    requires rest { walk.i ≡ length pattern.now → walk.j < length name.now }
    ensures some { IfSome result (λ w. IsUnderWay pattern.now name.now w.i w.j w.behind w.from
        × (turns pattern.now name.now w.i w.from < turns pattern.now name.now walk.i walk.from)) }
    ensures none { IfNone result (matches pattern.now name.now ≡ false) }
{
    if let Some(next) = onward(pattern, name, walk) {
        return Some(next);
    }
    let ends = (walk.behind == 0) | (walk.j == name.len());
    if ends {
        return None;
    }
    let from = walk.from + 1;
    Some(Walk {
        i: walk.behind,
        j: from,
        behind: walk.behind,
        from,
    })
}

// The step onward, None where what is left of the name doesn't fit.
fn onward(pattern: &[u8], name: &[u8], walk: Walk) -> Option<Walk>
    requires stands { IsUnderWay pattern.now name.now walk.i walk.j walk.behind walk.from }
    requires rest { walk.i ≡ length pattern.now → walk.j < length name.now }
    ensures some { IfSome result (λ w. IsUnderWay pattern.now name.now w.i w.j w.behind w.from
        × (turns pattern.now name.now w.i w.from < turns pattern.now name.now walk.i walk.from)) }
    ensures none { IfNone result (matches (drop walk.i pattern.now) (drop walk.j name.now) ≡ false) }
{
    if walk.i == pattern.len() {
        return None;
    }
    let i = walk.i + 1;
    let character = pattern[walk.i];
    if character == b'*' {
        return Some(Walk {
            i,
            j: walk.j,
            behind: i,
            from: walk.j,
        });
    }
    if walk.j == name.len() {
        return None;
    }
    match behind_one(character, name, walk.j) {
        Some(j) => Some(Walk {
            i,
            j,
            behind: walk.behind,
            from: walk.from,
        }),
        None => None,
    }
}

// The place behind what a character of the pattern, other than `*`, accepts at a place. None where it doesn't fit.
fn behind_one(character: u8, name: &[u8], at: usize) -> Option<usize>
    requires letter { (character == 42) ≡ false }
    requires range { at < length name.now }
    ensures some { IfSome result (λ n. (at < n) × (n ≤ length name.now) × LeadsBehind character name.now at n) }
    ensures none { IfNone result ((ps : List ℕ) → matches (character ∷ ps) (drop at name.now) ≡ false) }
{
    if character == b'?' {
        return Some(next_character(name, at + 1));
    }
    let same = upper(character) == upper(name[at]);
    if same {
        return Some(at + 1);
    }
    None
}

// Where the next character begins, from a place on.
fn next_character(name: &[u8], from: usize) -> usize
    requires { from ≤ length name.now }
    ensures range { (from ≤ result) × (result ≤ length name.now) }
    ensures is { (f : List ℕ → Bool) → after_character f (drop from name.now) ≡ f (drop result name.now) }
{
    let mut at = from;
    while at < name.len() {
        if !is_middle(name[at]) {
            return at;
        }
        at += 1;
    }
    at
}

// A byte of a character that began before it.
fn is_middle(byte: u8) -> bool
    ensures { result ≡ (nat_le 128 byte && nat_lt byte 192) }
{
    byte >= 128 && byte < 192
}

// A letter a to z as A to Z.
#[tactic(auto, unfolding(spec_exchange::specs::Texts::upper))]
fn upper(byte: u8) -> u8
    ensures { result ≡ upper byte }
{
    if byte >= 97 && byte <= 122 {
        byte - 32
    } else {
        byte
    }
}
