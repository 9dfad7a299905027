ghost use Rattle.std.specs.Prelude.{◌≡◌, ◌+◌, ◌*◌, ◌^◌, ◌++◌, ℕ, List, length};
ghost use Rattle.spec_wire.specs.messages.Places.{number};
ghost use Rattle.spec_wire.specs.messages.Header.{SpellsHeader, BreaksHeader, IsWritableHeader, header_spelling, async_id};
ghost use Rattle.spec_wire.specs.declared.messages.header.Header.{Header};
ghost use Rattle.spec_wire.specs.declared.messages.error.HeaderError.{HeaderError};

/// A message begins with at most one header, a header that is spelled has no break, and a canonical
/// spelling, whatever follows it, is 64 bytes that read back. The header's `tree` is the upper half of the
/// AsyncId that stands in the same place.
pub fn header_law()
    ensures one { (m : List ℕ) (h k : Header) → SpellsHeader m h → SpellsHeader m k → h ≡ k }
    ensures whole { (m : List ℕ) (h : Header) (e : HeaderError) → SpellsHeader m h → BreaksHeader m e → ⊥ }
    ensures length { (h : Header) → IsWritableHeader h → length (header_spelling h) ≡ 64 }
    ensures wide { (m : List ℕ) (h : Header) → SpellsHeader m h → async_id m ≡ number 4 m 32 + 2 ^ 32 * h.tree }
    ensures again { (rest : List ℕ) (h : Header) → IsWritableHeader h → SpellsHeader (header_spelling h ++ rest) h }
{}
