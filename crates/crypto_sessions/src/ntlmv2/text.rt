//! Text in UTF-16.
ghost use Rattle.std.specs.Prelude.{◌≡◌, IfOk};
ghost use Rattle.std.specs.String.{string_bytes};
ghost use Rattle.spec_crypto.specs.tokens.Formulas.{utf16, upper};

use std::alloc::{AllocError, Global};
use wire_bytes::Bytes;

/// A text in UTF-16, the low byte of a unit first.
#[tactic(auto, using(crate::proofs::ntlmv2::Texts::same_utf16))]
pub(crate) fn utf16_of(alloc: Global, text: &str) -> Result<Bytes, AllocError>
    ensures { IfOk result (λ b. b ≡ utf16 text.now) }
{
    wire_bytes::utf16_of(alloc, text)
}

/// A copy of a text with A to Z in place of a to z.
#[tactic(auto, unfolding(spec_crypto::specs::tokens::Formulas::upper))]
pub(crate) fn upper_of(alloc: Global, text: &str) -> Result<String, AllocError>
    ensures { IfOk result (λ s. string_bytes s ≡ upper text.now) }
{
    text.to_ascii_uppercase(alloc)
}

/// A copy of bytes with A to Z in place of a to z.
#[tactic(auto, unfolding(spec_crypto::specs::tokens::Formulas::upper))]
pub(crate) fn raised_of(alloc: Global, bytes: &[u8]) -> Result<Bytes, AllocError>
    ensures { IfOk result (λ b. b ≡ upper bytes.now) }
{
    let raised = bytes.to_ascii_uppercase(alloc)?;
    Ok(Bytes::from_vec(raised))
}
