// Bytes and statuses as they are printed.
ghost use Rattle.std.specs.Prelude.{◌≡◌, IfOk};
ghost use Rattle.std.specs.String.{string_bytes};
ghost use Rattle.script_words.specs.outcome_lines.Text as text;

use std::alloc::{AllocError, Global};

/// Two digits a byte, or `-` for no bytes.
pub(crate) fn bytes_text(alloc: Global, bytes: &[u8]) -> Result<String, AllocError>
    ensures { IfOk result (λ shown. string_bytes shown ≡ text.bytes_text bytes.now) }
{
    if bytes.is_empty() {
        return String::from_str(alloc, "-");
    }
    hex::encode(alloc, bytes)
}

/// Eight digits.
#[tactic(auto, unfolding(crate::specs::outcome_lines::Text::status_text))]
pub(crate) fn status_text(alloc: Global, status: u32) -> Result<String, AllocError>
    ensures { IfOk result (λ shown. string_bytes shown ≡ text.status_text status) }
{
    hex::encode(alloc, status.to_be_bytes())
}
