ghost use Rattle.std.specs.Prelude.{◌≡◌, ◌<◌, ◌≤◌, Some, None, length, MatchResult};
ghost use Rattle.spec_wire.specs.messages.Fault.{short_fault};
ghost use Rattle.spec_wire.specs.declared.messages.error.MessageError.TheVariants as errors;
ghost use Rattle.wire_bytes.specs.byte_lists.Widths.{total};

use crate::byte_lists::Short;

// Asked once for a whole fixed part, so that each field is then read by a call that can't fail. With a `?` for each
// field these rooms took two to five times as long to prove.
/// Whether fields of these widths stand in `m`, the first at its beginning and each behind the one before. The refusal
/// tells the place of the first field for which there are too few bytes.
pub fn fields_fit(m: &[u8], widths: &[usize]) -> Result<(), Short>
    ensures { MatchResult result
        (λ _. (short_fault m.now 0 widths.now ≡ None) × (total widths.now ≤ length m.now))
        (λ e. (short_fault m.now 0 widths.now ≡ Some (errors.Short e.at)) × (length m.now < total widths.now)) }
{
    let mut at = 0;
    let mut left = widths;
    while let Some((width, rest)) = left.split_first() {
        if m.len() - at < *width {
            return Err(Short { at });
        }
        at += *width;
        left = rest;
    }
    Ok(())
}
