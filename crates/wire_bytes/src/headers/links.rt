ghost use Rattle.std.specs.Prelude.{◌≡◌, ◌<◌, false, drop, length};
ghost use Rattle.spec_wire.specs.messages.Places.{number};
ghost use Rattle.spec_wire.specs.messages.Chain.{is_badly_linked, piece};

/// Whether a chain of items breaks at its first one, which tells that the next one is so far behind it:
/// the next one isn't at a multiple of 8, or is past the end.
#[tactic(auto, unfolding(spec_wire::specs::messages::Chain::is_badly_linked))]
pub fn is_badly_linked(m: &[u8], next: usize) -> bool
    requires { next ≡ number 4 m.now 0 }
    ensures { result ≡ is_badly_linked m.now }
{
    next != 0 && (next % 8 != 0 || m.len() < next)
}

/// The bytes of the first item of a chain, which tells that the next one is so far behind it, or that
/// there is none.
#[tactic(auto, unfolding(spec_wire::specs::messages::Chain::piece, spec_wire::specs::messages::Chain::is_badly_linked))]
pub fn piece_of(m: &[u8], next: usize) -> &[u8]
    requires told { next ≡ number 4 m.now 0 }
    requires linked { is_badly_linked m.now ≡ false }
    ensures { result.now ≡ piece m.now }
{
    if next == 0 { m } else { &m[..next] }
}

/// The items of a chain behind its first one, which tells that the next one is so far behind it.
#[tactic(auto, unfolding(spec_wire::specs::messages::Chain::is_badly_linked))]
pub fn items_behind(m: &[u8], next: usize) -> &[u8]
    requires told { next ≡ number 4 m.now 0 }
    requires linked { is_badly_linked m.now ≡ false }
    ensures value { result.now ≡ drop next m.now }
    ensures shorter { (next ≡ 0 → ⊥) → length result.now < length m.now }
{
    &m[next..]
}
