ghost use Rattle.std.specs.Prelude.{◌≡◌};
ghost use Rattle.spec_wire.specs.messages.CreateContexts.{is_persistent, flags_of, first};

// Of two values the first that is there.
pub fn first<T: Copy>(a: Option<T>, b: Option<T>) -> Option<T>
    ensures { result ≡ first a b }
{
    match a {
        Some(_) => a,
        None => b,
    }
}

#[tactic(auto, unfolding(spec_wire::specs::messages::CreateContexts::is_persistent))]
pub fn is_persistent(flags: u32) -> bool
    ensures { result ≡ is_persistent flags }
{
    (flags / 2) % 2 == 1
}

#[tactic(auto, unfolding(spec_wire::specs::messages::CreateContexts::flags_of))]
pub fn flags_of(persistent: bool) -> u32
    ensures { result ≡ flags_of persistent }
{
    if persistent { 2 } else { 0 }
}
