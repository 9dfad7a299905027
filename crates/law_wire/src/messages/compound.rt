ghost use Rattle.std.specs.Prelude.{◌≡◌, ℕ, List};
ghost use Rattle.spec_wire.specs.messages.Compound.{SpellsCompound, BreaksCompound};
ghost use Rattle.spec_wire.specs.declared.messages.header.Span.{Span};
ghost use Rattle.spec_wire.specs.declared.messages.error.HeaderError.{HeaderError};
ghost use Rattle.spec_wire.specs.declared.messages.error.HeaderError.TheVariants as errors;

use crate::messages::header::header_law;

/// A frame is one list of messages at most, and a frame that is one has no break.
pub fn compound_law()
    ensures one { (frame : List ℕ) (ss ts : List Span) → SpellsCompound frame ss → SpellsCompound frame ts → ss ≡ ts }
    ensures whole { (frame : List ℕ) (ss : List Span) (e : HeaderError) → SpellsCompound frame ss
        → BreaksCompound frame e → (e ≡ errors.Memory → ⊥) → ⊥ }
{
    header_law();
}
