ghost use Rattle.std.specs.Prelude.{◌≡◌, ◌&&◌, ◌∷◌, List, ℕ};
ghost use Rattle.spec_wire.specs.messages.Offer.{is_known, has_id, lists_fit};
ghost use Rattle.wire_bytes.specs.negotiate_contexts.Views.{Saw};

use crate::byte_lists::u16_at;

/// Which of the known types stood before.
#[derive(Clone, Copy)]
pub(crate) struct Seen {
    pub preauth: bool,
    pub encryption: bool,
    pub signing: bool,
}

/// Whether a context's own lists fit.
pub(crate) fn lists_fit(kind: u16, bytes: &[u8]) -> bool
    ensures { result ≡ lists_fit (record { kind = kind; bytes = bytes.now }) }
{
    let len = bytes.len();
    if kind == 1 {
        return len >= 4 && 4 + 2 * u16_at(bytes, 0) as usize + u16_at(bytes, 2) as usize <= len;
    }
    if kind == 2 || kind == 8 {
        return len >= 2 && 2 + 2 * u16_at(bytes, 0) as usize <= len;
    }
    true
}

/// Whether a type is known and stood before.
#[tactic(auto, unfolding(spec_wire::specs::messages::Offer::has_id))]
pub(crate) fn doubles(seen: Seen, kind: u16) -> bool
    ensures { (before : List ℕ) → Saw seen before → result ≡ (is_known kind && has_id kind before) }
{
    if kind == 1 {
        return seen.preauth;
    }
    if kind == 2 {
        return seen.encryption;
    }
    if kind == 8 {
        return seen.signing;
    }
    false
}

/// The types that stood before, and one more.
#[tactic(auto, unfolding(spec_wire::specs::messages::Offer::has_id))]
pub(crate) fn with_kind(seen: Seen, kind: u16) -> Seen
    ensures { (before : List ℕ) → Saw seen before → Saw result (kind ∷ before) }
{
    Seen {
        preauth: kind == 1 || seen.preauth,
        encryption: kind == 2 || seen.encryption,
        signing: kind == 8 || seen.signing,
    }
}
