ghost use Rattle.std.specs.Prelude.{◌≡◌, ◌++◌, ℕ, List, length, None};
ghost use Rattle.spec_wire.specs.messages.Bare.{SpellsBare, bare_fault, bare_spelling};

/// The laws of the messages that tell nothing. Each has one value alone.
pub fn bare_law()
    ensures whole { (m : List ℕ) → SpellsBare m → bare_fault m ≡ None }
    ensures given { (m : List ℕ) → bare_fault m ≡ None → SpellsBare m }
    ensures again { (header rest : List ℕ) → length header ≡ 64 → SpellsBare (header ++ (bare_spelling ++ rest)) }
{}
