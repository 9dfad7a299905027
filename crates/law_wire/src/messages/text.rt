ghost use Rattle.std.specs.Prelude.{◌≡◌, ℕ, List, IsUtf8};
ghost use Rattle.spec_wire.specs.messages.Utf16.{utf16, BreaksUtf16};
ghost use Rattle.spec_wire.specs.declared.messages.refusal.TextError.{TextError};
ghost use Rattle.spec_wire.specs.declared.messages.refusal.TextError.TheVariants as errors;

/// Bytes are one text's UTF-16 at most, and those that are a text's have no break.
pub fn text_law()
    ensures one { (s t : List ℕ) → IsUtf8 s → IsUtf8 t → utf16 s ≡ utf16 t → s ≡ t }
    ensures whole { (t : List ℕ) (e : TextError) → IsUtf8 t → BreaksUtf16 (utf16 t) e → (e ≡ errors.Memory → ⊥) → ⊥ }
{}
