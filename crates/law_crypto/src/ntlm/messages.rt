//! A canonical spelling reads back.
ghost use Rattle.std.specs.Prelude.{◌≡◌, Ok};
ghost use Rattle.spec_crypto.specs.declared.tokens.ntlm.Type1.{Type1};
ghost use Rattle.spec_crypto.specs.tokens.Messages.{Type2Value, Type3Value, type1_in, type2_in, type3_in, type1_spelling};
ghost use Rattle.spec_crypto.specs.tokens.Messages.{type2_spelling, type3_spelling, IsWritableType1, IsWritableType2};
ghost use Rattle.spec_crypto.specs.tokens.Messages.{IsWritableType3};
ghost use Rattle.law_crypto.specs.ntlm.Fitting.{HasPairs2, HasPairs3};

/// A type 1 reads back.
pub fn type1_law()
    ensures { (v : Type1) → IsWritableType1 v → type1_in (type1_spelling v) ≡ Ok v }
{}

/// A type 2 reads back, where the pairs of its target information fit.
pub fn type2_law()
    ensures { (v : Type2Value) → IsWritableType2 v → HasPairs2 v → type2_in (type2_spelling v) ≡ Ok v }
{}

/// A type 3 reads back, where the pairs of its response fit.
pub fn type3_law()
    ensures { (v : Type3Value) → IsWritableType3 v → HasPairs3 v → type3_in (type3_spelling v) ≡ Ok v }
{}
